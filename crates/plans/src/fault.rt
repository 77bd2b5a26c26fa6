ghost use Rattle.std.specs.Prelude.{◌≡◌, Some};
ghost use Rattle.plans.specs.Faults.{fault_number, fault_text};

use std::error::Error;
use std::fmt;

/// Why a rack cannot be opened with such numbers, each by its number.
// `Units` and `Source` are cases of `PlaceFault` too: a layer's enum has just the refusals that the layer can answer.
#[derive(Clone, Copy, PartialEq, Eq, Debug)]
pub enum PlanFault {
    /// n outside 4 to 21
    Units = 1,
    /// gear 1, or above 3
    Gear = 2,
    /// t outside what n and the gear allow
    Tolerance = 3,
    /// a source not below n
    Source = 4,
}

impl PlanFault {
    /// The number of the refusal.
    // A method of each layer's enum: no generic function can cast an enum to its number.
    pub fn number(&self) -> u32
        ensures { result ≡ fault_number self.now }
    {
        *self as u32
    }
}

// By hand: a derived `Display` would promise no text.
impl fmt::Display for PlanFault {
    ghost output = { λ fault. Some (fault_text fault) };

    fn fmt<W: fmt::Write>(&self, f: &mut fmt::Formatter<W>) -> fmt::Result {
        f.write_str(match self {
            PlanFault::Units => "n outside 4 to 21",
            PlanFault::Gear => "gear 1, or above 3",
            PlanFault::Tolerance => "t outside what n and the gear allow",
            PlanFault::Source => "source not below n",
        })
    }
}

impl Error for PlanFault {}
