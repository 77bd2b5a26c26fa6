ghost use Rattle.lines.specs.Laws.{muted_faithful};
ghost use Rattle.lines.specs.Piles.{muted};

use crate::line::Line;
use crate::way::Way;
use masks::{has, join};

/// A line over another one: letters from `units` bring nothing, and all else is as below.
/// A script is lent to the line over it: `Mute { below: &script, units }`.
#[derive(Drop)]
pub struct Mute<L> {
    pub below: L,
    pub units: u32,
}

impl<L: Line> Line for Mute<L> {
    ghost model = { λ m. muted m.units (L.Line.model m.below) };

    ghost faithful = { λ m. muted_faithful m.units (L.Line.model m.below) (L.Line.faithful m.below) };

    fn mask(&self) -> u32 {
        join(self.units, self.below.mask())
    }

    fn carry(&self, way: Way, code: u32) -> Option<u32> {
        if has(self.units, way.from) {
            None
        } else {
            self.below.carry(way, code)
        }
    }
}
