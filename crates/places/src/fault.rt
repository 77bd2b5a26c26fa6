ghost use Rattle.std.specs.Prelude.{◌≡◌, Some};
ghost use Rattle.places.specs.Faults.{fault_number, fault_text};

use std::error::Error;
use std::fmt;

/// Why a rack of units, a unit, a level or a place is refused, each by its number.
// `PlanFault` has two of these cases too: a layer's enum has just the refusals that the layer can answer.
#[derive(Clone, Copy, PartialEq, Eq, Debug)]
pub enum PlaceFault {
    /// n outside 4 to 21
    Units = 1,
    /// a source not below n
    Source = 4,
    /// a unit, level or place that does not exist
    Absent = 13,
}

impl PlaceFault {
    /// The number of the refusal.
    // A method of each layer's enum: no generic function can cast an enum to its number.
    pub fn number(&self) -> u32
        ensures { result ≡ fault_number self.now }
    {
        *self as u32
    }
}

// By hand, here and for the other faults: a derived `Display` would promise no text.
impl fmt::Display for PlaceFault {
    ghost output = { λ fault. Some (fault_text fault) };

    fn fmt<W: fmt::Write>(&self, f: &mut fmt::Formatter<W>) -> fmt::Result {
        f.write_str(match self {
            PlaceFault::Units => "n outside 4 to 21",
            PlaceFault::Source => "source not below n",
            PlaceFault::Absent => "no such unit, level or place",
        })
    }
}

impl Error for PlaceFault {}
