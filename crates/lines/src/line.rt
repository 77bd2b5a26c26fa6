ghost use Rattle.std.specs.Prelude.{◌≡◌};
ghost use Rattle.lines.specs.Lines.{Faithful, LineModel};

use crate::way::Way;

/// A line names its loose units and tells what arrives of what is given. Asking it alters nothing and is never refused.
pub trait Line {
    // What the line means: the mask of its loose units, and what arrives.
    ghost model: { Self → LineModel };

    // Its law: what a unit outside the mask gives arrives as given.
    ghost faithful: { (l : Self) → Faithful (model l) };

    /// The mask of the loose units.
    fn mask(&self) -> u32
        ensures { result ≡ (model self.now).mask };

    /// What arrives of a code that the way's sender gives to its receiver: a code, or nothing.
    fn carry(&self, way: Way, code: u32) -> Option<u32>
        ensures { result ≡ (model self.now).arrives way code };
}

/// A lent line means what the line means, so that lines can be piled on one that its owner keeps.
impl<L: Line> Line for &L {
    ghost model = { λ l. L.Line.model l.now };

    ghost faithful = { λ l. L.Line.faithful l.now };

    fn mask(&self) -> u32 {
        (*self).mask()
    }

    fn carry(&self, way: Way, code: u32) -> Option<u32> {
        (*self).carry(way, code)
    }
}
