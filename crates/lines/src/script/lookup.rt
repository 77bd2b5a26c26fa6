ghost use Rattle.std.specs.Prelude.{◌≡◌};
ghost use Rattle.lines.specs.Laws.{scripted_faithful};
ghost use Rattle.lines.specs.Scripts.{brought, first_match};
ghost use Rattle.lines.specs.States.{in_use, meaning, view};

use super::{Record, Script};
use crate::line::Line;
use crate::way::Way;
use masks::has;

// A record with this code says that nothing arrives.
const NOTHING: u32 = 4294967295;

impl Record {
    // What arrives by the record.
    fn brings(&self) -> Option<u32>
        ensures { result ≡ brought self.now }
    {
        (self.code != NOTHING).then_some(self.code)
    }
}

// The first record for the way.
fn find(records: &[Record], way: Way) -> Option<Record>
    ensures { result ≡ first_match way records.now }
{
    records.iter().copied().find(|record| record.way == way)
}

impl Line for Script<'_> {
    ghost model = { λ s. meaning (view s) };

    ghost faithful = { λ s. scripted_faithful (in_use (view s)) s.loose };

    fn mask(&self) -> u32 {
        self.loose
    }

    fn carry(&self, way: Way, code: u32) -> Option<u32> {
        if !has(self.loose, way.from) {
            return Some(code);
        }
        find(&self.table[..self.used], way).map_or(Some(code), |record| record.brings())
    }
}
