ghost use Rattle.std.specs.Prelude.{Some};
ghost use Rattle.kinds.specs.Texts.{right_text};

use crate::right::Right;
use std::fmt;

impl fmt::Display for Right {
    ghost output = { λ right. Some (right_text right) };

    fn fmt<W: fmt::Write>(&self, f: &mut fmt::Formatter<W>) -> fmt::Result {
        match self {
            Right::Withdrawn => f.write_str("withdrawn"),
            Right::Watch => f.write_str("watch"),
            Right::Operate(minutes) => write!(f, "operate {} min", minutes.count),
        }
    }
}
