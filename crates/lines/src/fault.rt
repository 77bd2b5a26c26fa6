ghost use Rattle.std.specs.Prelude.{◌≡◌, Some};
ghost use Rattle.lines.specs.Faults.{fault_number, fault_text};

use std::error::Error;
use std::fmt;

/// Why a script refuses a call.
#[derive(Clone, Copy, PartialEq, Eq, Debug)]
pub enum ScriptFault {
    /// The sender of an added record is above 20.
    Sender = 16,
    /// There would be more records than the table holds, or than 65,535.
    Full = 18,
}

impl ScriptFault {
    /// The number of the refusal.
    // A method of each layer's enum: no generic function can cast an enum to its number.
    pub fn number(&self) -> u32
        ensures { result ≡ fault_number self.now }
    {
        *self as u32
    }
}

// By hand: a derived `Display` would promise no text.
impl fmt::Display for ScriptFault {
    ghost output = { λ fault. Some (fault_text fault) };

    fn fmt<W: fmt::Write>(&self, f: &mut fmt::Formatter<W>) -> fmt::Result {
        f.write_str(match self {
            ScriptFault::Sender => "sender above 20",
            ScriptFault::Full => "script full",
        })
    }
}

impl Error for ScriptFault {}
