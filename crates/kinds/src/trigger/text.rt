ghost use Rattle.std.specs.Prelude.{Some};
ghost use Rattle.kinds.specs.Texts.{slope_text, trigger_text};

use crate::trigger::{Slope, Trigger};
use std::fmt;

impl fmt::Display for Slope {
    ghost output = { λ slope. Some (slope_text slope) };

    fn fmt<W: fmt::Write>(&self, f: &mut fmt::Formatter<W>) -> fmt::Result {
        f.write_str(match self {
            Slope::Rising => "rising",
            Slope::Falling => "falling",
        })
    }
}

impl fmt::Display for Trigger {
    ghost output = { λ trigger. Some (trigger_text trigger) };

    fn fmt<W: fmt::Write>(&self, f: &mut fmt::Formatter<W>) -> fmt::Result {
        write!(
            f,
            "channel {}, {}, level {}",
            self.channel, self.slope, self.level
        )
    }
}
