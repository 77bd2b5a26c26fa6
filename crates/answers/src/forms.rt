//! What a question is answered.
ghost use Rattle.std.specs.Prelude.{◌≡◌, alloc_error};
ghost use Rattle.answers.specs.declared.forms.Value.{Value};
ghost use Rattle.answers.specs.declared.forms.Refusal.TheVariants.{Place, Plan, Script};
ghost use Rattle.answers.specs.declared.forms.Unvoted.TheVariants.{NoMemory};
ghost use Rattle.answers.specs.Refusals.{refusal_number};

use fields::{KindName, Misread};
use kinds::{Kind, Right, Trigger};
use lines::ScriptFault;
use places::fault::PlaceFault;
use places::sequence::Sequence;
use plans::fault::PlanFault;
use plans::plan::Plan;
use std::alloc::{AllocError, AllocFailed};

/// A value of one of the kinds.
#[derive(Clone, Copy)]
pub enum Value {
    Right(Right),
    Trigger(Trigger),
}

/// A kind whose values are shown.
// No `From`: it promises a relation, and the replies need the function that is given here.
pub trait Shown: Kind {
    ghost as_value: { Self → Value };

    /// The value, beside those of the other kinds.
    fn value(self) -> Value
        ensures { result ≡ as_value self };
}

impl Shown for Right {
    ghost as_value = { Value.Right };

    fn value(self) -> Value {
        Value::Right(self)
    }
}

impl Shown for Trigger {
    ghost as_value = { Value.Trigger };

    fn value(self) -> Value {
        Value::Trigger(self)
    }
}

/// The answer to a question.
#[derive(Clone, Copy)]
pub enum Answer {
    /// The value that has the code.
    Found(Value),
    /// No value of the kind has the code.
    NoValue {
        kind: KindName,
        code: u32,
    },
    /// The code of the value.
    Code(u32),
    /// No value of the kind has such parts.
    NoSuch(KindName),
    /// Level and place of a sequence.
    Place {
        level: usize,
        place: u32,
    },
    /// A sequence, with the last unit and the parent's place unless it is the root.
    Sequence {
        found: Sequence,
        back: Option<(u32, u32)>,
    },
    /// The numbers of a run, which tell its rounds, blocks and values.
    Plan(Plan),
    /// What the vote answers, a value or open.
    Vote(Option<Value>),
    /// A record was added: how many there are, for how many there is room, and the mask of the loose units.
    Added {
        used: usize,
        capacity: usize,
        mask: u32,
    },
    /// What arrives, a code or nothing.
    Arrives(Option<u32>),
}

/// Why a question is refused.
#[derive(Clone, Copy, PartialEq, Eq, Debug)]
pub enum Refusal {
    Place(PlaceFault),
    Plan(PlanFault),
    Script(ScriptFault),
}

impl Refusal {
    /// The number of the refusal.
    // A case that holds a value has no cast to a number.
    pub fn number(&self) -> u32
        ensures { result ≡ refusal_number self.now }
    {
        match self {
            Refusal::Place(fault) => fault.number(),
            Refusal::Plan(fault) => fault.number(),
            Refusal::Script(fault) => fault.number(),
        }
    }
}

/// Why typed codes could not be voted on.
// An enum of this crate, as `Unread` is of `sheets`: one generic enum would call a flaw and a code by one name.
#[derive(Clone, Copy)]
pub enum Unvoted {
    /// No value has this code.
    NoValue(u32),
    /// There was no memory for the entries.
    NoMemory(AllocError),
}

// By hand: a derived `From` does not promise which case it gives.
impl<T: Drop> From<AllocFailed<T>> for Unvoted {
    ghost from_gives = { λ _ r. r ≡ NoMemory alloc_error };

    fn from(failed: AllocFailed<T>) -> Unvoted {
        Unvoted::NoMemory(failed.into())
    }
}

/// Why a line has no answer.
#[derive(Clone, Copy, PartialEq, Eq, Debug)]
pub enum Unanswered {
    /// The question is refused.
    Refused(Refusal),
    /// The line is no question.
    NotUnderstood(Misread),
}

/// What became of a line.
pub type Outcome = Result<Answer, Unanswered>;

// Each `From` is written by hand, since a derived one does not promise which case it gives, and the replies name the case.
impl From<PlaceFault> for Refusal {
    ghost from_gives = { λ f r. r ≡ Place f };

    fn from(fault: PlaceFault) -> Refusal {
        Refusal::Place(fault)
    }
}

impl From<PlanFault> for Refusal {
    ghost from_gives = { λ f r. r ≡ Plan f };

    fn from(fault: PlanFault) -> Refusal {
        Refusal::Plan(fault)
    }
}

impl From<ScriptFault> for Refusal {
    ghost from_gives = { λ f r. r ≡ Script f };

    fn from(fault: ScriptFault) -> Refusal {
        Refusal::Script(fault)
    }
}
