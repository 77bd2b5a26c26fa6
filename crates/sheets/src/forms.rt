//! What a line can ask.
ghost use Rattle.std.specs.Prelude.{◌≡◌, alloc_error};
ghost use Rattle.sheets.specs.declared.forms.Unread.TheVariants.{Flaw, NoMemory};

use fields::{KindName, Misread, VoteName};
use kinds::Slope;
use lines::{Record, Way};
use std::alloc::{AllocError, AllocFailed};

/// A right as it is typed: the minutes may be out of its range.
// No `kinds::Right`, whose minutes are in range: a line that asks for others is understood, and answered that there is none.
#[derive(Clone, Copy, Debug, PartialEq, Eq)]
pub enum RightName {
    Withdrawn,
    Watch,
    Operate { minutes: u32 },
}

/// The first word of a line.
// Read and then matched once: how a word is read is one rule for all names, in the definitions too.
#[derive(Clone, Copy)]
pub(crate) enum Topic {
    Code,
    Value,
    Place,
    Sequence,
    Plan,
    Vote,
    Letter,
    Arrives,
}

/// What a line asks. The numbers are those typed: none is held to a range of the rack.
#[derive(Drop)]
pub enum Question {
    /// Which value of the kind has the code.
    Code {
        kind: KindName,
        code: u32,
    },
    /// The code of a right.
    ValueRight {
        right: RightName,
    },
    /// The code of a trigger setting.
    ValueTrigger {
        channel: u32,
        slope: Slope,
        level: i32,
    },
    /// Level and place of a sequence of units.
    Place {
        n: u32,
        source: u32,
        units: Vec<u32>,
    },
    /// The sequence at a place of a level.
    Sequence {
        n: u32,
        source: u32,
        level: u32,
        place: u32,
    },
    /// Rounds, blocks and values of a rack.
    Plan {
        n: u32,
        t: u32,
        gear: u32,
        source: u32,
    },
    /// What a vote answers on entries, of which the open ones are `None`.
    Vote {
        kind: KindName,
        vote: VoteName,
        t: u32,
        entries: Vec<Option<u32>>,
    },
    /// Adds a record to the script.
    AddLetter(Record),
    /// What arrives through the script of a code that is given.
    Arrives {
        way: Way,
        code: u32,
    },
}

/// Why a line gave no answer.
// An enum of this crate, as `Unvoted` is of `answers`: one generic enum would call a flaw and a code by one name.
#[derive(Clone, Copy, Debug, PartialEq, Eq)]
pub enum Unread {
    /// It is not understood.
    Flaw(Misread),
    /// There was no memory for its words or numbers.
    NoMemory(AllocError),
}

// Each `From` is written by hand, since a derived one does not promise which case it gives.
impl From<Misread> for Unread {
    ghost from_gives = { λ m r. r ≡ Flaw m };

    fn from(misread: Misread) -> Unread {
        Unread::Flaw(misread)
    }
}

impl From<AllocError> for Unread {
    ghost from_gives = { λ e r. r ≡ NoMemory e };

    fn from(error: AllocError) -> Unread {
        Unread::NoMemory(error)
    }
}

impl<T: Drop> From<AllocFailed<T>> for Unread {
    ghost from_gives = { λ _ r. r ≡ NoMemory alloc_error };

    fn from(error: AllocFailed<T>) -> Unread {
        Unread::NoMemory(error.into())
    }
}
