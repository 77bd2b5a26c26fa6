//! How answers and refusals are printed.
ghost use Rattle.std.specs.Prelude.{Some, Err};
ghost use Rattle.answers.specs.Replies.{replied, shown};
ghost use Rattle.answers.specs.Texts.{refusal_text, reply_text, tally_text};

use crate::forms::{Answer, Refusal, Unanswered, Value};
use crate::tally::Tally;
use kinds::Kind;
use std::error::Error;
use std::fmt;

impl fmt::Display for Answer {
    ghost output = { λ answer. Some (reply_text (replied answer)) };

    fn fmt<W: fmt::Write>(&self, f: &mut fmt::Formatter<W>) -> fmt::Result {
        match self {
            Answer::Found(Value::Right(right)) => write!(f, "right {right}"),
            Answer::Found(Value::Trigger(trigger)) => write!(f, "trigger {trigger}"),
            Answer::NoValue { kind, code } => write!(f, "no {kind} has code {code}"),
            Answer::Code(code) => write!(f, "code {code}"),
            Answer::NoSuch(kind) => write!(f, "no such {kind}"),
            Answer::Place { level, place } => write!(f, "level {level}, place {place}"),
            Answer::Sequence {
                found,
                back: Some((last, parent)),
            } => write!(f, "{found}, last unit {last}, parent at place {parent}"),
            Answer::Sequence { found, back: None } => write!(f, "{found}, no way back"),
            Answer::Plan(plan) => write!(f, "{plan}"),
            Answer::Vote(Some(Value::Right(right))) => write!(f, "{right}, code {}", right.code()),
            Answer::Vote(Some(Value::Trigger(trigger))) => write!(
                f,
                "{trigger}, code {}",
                trigger.code()
            ),
            Answer::Vote(None) => write!(f, "open"),
            Answer::Added {
                used,
                capacity,
                mask,
            } => write!(f, "record {used} of {capacity}, loose mask {mask}"),
            Answer::Arrives(Some(code)) => write!(f, "code {code} arrives"),
            Answer::Arrives(None) => write!(f, "nothing arrives"),
        }
    }
}

// By hand, here and for `Unanswered`: a derived `Display` would promise no text.
impl fmt::Display for Refusal {
    ghost output = { λ refusal. Some (refusal_text refusal) };

    fn fmt<W: fmt::Write>(&self, f: &mut fmt::Formatter<W>) -> fmt::Result {
        match self {
            Refusal::Place(fault) => write!(f, "{fault}"),
            Refusal::Plan(fault) => write!(f, "{fault}"),
            Refusal::Script(fault) => write!(f, "{fault}"),
        }
    }
}

impl Error for Refusal {}

impl fmt::Display for Unanswered {
    ghost output = { λ unanswered. Some (reply_text (shown (Err unanswered))) };

    fn fmt<W: fmt::Write>(&self, f: &mut fmt::Formatter<W>) -> fmt::Result {
        match self {
            Unanswered::Refused(refusal) => write!(f, "refused {}: {refusal}", refusal.number()),
            Unanswered::NotUnderstood(misread) => write!(f, "not understood: {misread}"),
        }
    }
}

impl Error for Unanswered {}

impl fmt::Display for Tally {
    ghost output = { λ tally. Some (tally_text tally) };

    fn fmt<W: fmt::Write>(&self, f: &mut fmt::Formatter<W>) -> fmt::Result {
        let Tally {
            answered,
            refused,
            unclear,
        } = *self;
        write!(
            f,
            "answered {answered}, refused {refused}, not understood {unclear}"
        )
    }
}
