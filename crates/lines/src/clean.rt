ghost use Rattle.lines.specs.Laws.{clean_faithful};
ghost use Rattle.lines.specs.Piles.{clean};

use crate::line::Line;
use crate::way::Way;

/// The line on which every letter arrives as given.
#[derive(Clone, Copy)]
pub struct Clean;

impl Line for Clean {
    ghost model = { λ _. clean };

    ghost faithful = { λ _. clean_faithful };

    fn mask(&self) -> u32 {
        0
    }

    fn carry(&self, _way: Way, code: u32) -> Option<u32> {
        Some(code)
    }
}
