//! Records of a script, and what arrives through it.
ghost use Rattle.std.specs.Prelude.{◌≡◌};
ghost use Rattle.lines.specs.Calls.{after_add};
ghost use Rattle.lines.specs.States.{Becomes, view};
ghost use Rattle.answers.specs.Letters.{arrives_reply, letter_reply};
ghost use Rattle.answers.specs.Replies.{replied, settled};

use crate::forms::{Answer, Refusal};
use lines::{Line, Record, Script, Way};

// Adds the record to the script.
pub(crate) fn letter_answer(script: &mut Script, added: Record) -> Result<Answer, Refusal>
    ensures value { settled result ≡ letter_reply (view script.old) added }
    ensures after { Becomes script.old script.new (after_add (view script.old) added) }
{
    script.add(added)?;
    Ok(Answer::Added {
        used: script.used(),
        capacity: script.capacity(),
        mask: script.mask(),
    })
}

// What arrives through the script of a code that is given.
pub(crate) fn arrives_answer(script: &Script, way: Way, code: u32) -> Answer
    ensures { replied result ≡ arrives_reply (view script.now) way code }
{
    Answer::Arrives(script.carry(way, code))
}
