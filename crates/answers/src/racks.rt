//! Sequences, places and plans.
ghost use Rattle.std.specs.Prelude.{◌≡◌};
ghost use Rattle.answers.specs.Racks.{place_reply, plan_reply, sequence_reply};
ghost use Rattle.answers.specs.Replies.{settled};

use crate::forms::{Answer, Refusal};
use places::shape::Shape;
use plans::plan::Plan;

// Sequences are looked up in trees of the most levels that there are.
const LEVELS: u32 = 4;

// Level and place of a sequence.
pub(crate) fn place_answer(n: u32, source: u32, units: &[u32]) -> Result<Answer, Refusal>
    ensures { settled result ≡ place_reply n source units.now }
{
    let shape = Shape::new(n, source, LEVELS)?;
    let place = shape.place(units)?;
    Ok(Answer::Place {
        level: units.len(),
        place,
    })
}

// The sequence at a place, and its way back.
pub(crate) fn sequence_answer(
    n: u32,
    source: u32,
    level: u32,
    place: u32,
) -> Result<Answer, Refusal>
    ensures { settled result ≡ sequence_reply n source level place }
{
    let shape = Shape::new(n, source, LEVELS)?;
    let found = shape.sequence(level, place)?;
    let back = shape.way_back(level, place).ok();
    Ok(Answer::Sequence { found, back })
}

// The numbers of a run.
pub(crate) fn plan_answer(n: u32, t: u32, gear: u32, source: u32) -> Result<Answer, Refusal>
    ensures { settled result ≡ plan_reply n t gear source }
{
    let plan = Plan::new(n, t, gear, source)?;
    Ok(Answer::Plan(plan))
}
