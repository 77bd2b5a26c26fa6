//! Answers to the questions of a bench sheet.
#![tactic(auto)]

ghost use Rattle.std.specs.Prelude.{◌≡◌, IfOk, MatchResult};
ghost use Rattle.std.specs.Option.{option_map};
ghost use Rattle.lines.specs.States.{Becomes, view};
ghost use Rattle.sheets.specs.Asked.{seen};
ghost use Rattle.sheets.specs.Lines.{line_of};
ghost use Rattle.answers.specs.Questions.{reply_to, response_to, script_after, script_after_line};
ghost use Rattle.answers.specs.Replies.{shown};

mod ballots;
pub mod forms;
mod letters;
mod racks;
pub mod tally;
mod texts;
mod values;

use ballots::vote_answer;
use forms::{Outcome, Unanswered};
use letters::{arrives_answer, letter_answer};
use lines::Script;
use racks::{place_answer, plan_answer, sequence_answer};
use sheets::{Question, Unread, read_line};
use std::alloc::{AllocError, Global};
use values::{code_answer, right_answer, trigger_answer};

/// Answers a question, over the script of the records added so far. Only the adding of a record changes the script; if memory runs out, it is as it was.
pub fn answer(heap: Global, question: &Question, script: &mut Script) -> Result<Outcome, AllocError>
    ensures value { IfOk result (λ o. shown o ≡ reply_to (seen question.now) (view script.old)) }
    ensures after { MatchResult result (λ _. Becomes script.old script.new (script_after (seen question.now) (view script.old))) (λ _. Becomes script.old script.new (view script.old)) }
{
    // An `Ok` in each arm: with one round the match its proof needs an answer that names the nine arms.
    match question {
        Question::Code { kind, code } => Ok(Ok(code_answer(*kind, *code))),
        Question::ValueRight { right } => Ok(Ok(right_answer(*right))),
        Question::ValueTrigger {
            channel,
            slope,
            level,
        } => Ok(Ok(trigger_answer(*channel, *slope, *level))),
        Question::Place { n, source, units } => {
            Ok(place_answer(*n, *source, units.as_slice()).map_err(Unanswered::Refused))
        }
        Question::Sequence {
            n,
            source,
            level,
            place,
        } => Ok(sequence_answer(*n, *source, *level, *place).map_err(Unanswered::Refused)),
        Question::Plan { n, t, gear, source } => {
            Ok(plan_answer(*n, *t, *gear, *source).map_err(Unanswered::Refused))
        }
        Question::Vote {
            kind,
            vote,
            t,
            entries,
        } => Ok(Ok(vote_answer(heap, *kind, *vote, *t, entries.as_slice())?)),
        Question::AddLetter(record) => {
            Ok(letter_answer(script, *record).map_err(Unanswered::Refused))
        }
        Question::Arrives { way, code } => Ok(Ok(arrives_answer(script, *way, *code))),
    }
}

/// Reads a line of a sheet and answers it; a line without words has no answer. If memory runs out, the script is as it was.
pub fn respond(
    heap: Global,
    line: &[u8],
    script: &mut Script,
) -> Result<Option<Outcome>, AllocError>
    ensures value { IfOk result (λ o. option_map shown o ≡ response_to (line_of line.now) (view script.old)) }
    ensures after { MatchResult result (λ _. Becomes script.old script.new (script_after_line (line_of line.now) (view script.old))) (λ _. Becomes script.old script.new (view script.old)) }
{
    // A flaw is an outcome and lack of memory is none, so that `?` cannot part the two.
    match read_line(heap, line) {
        Ok(Some(question)) => {
            let outcome = answer(heap, &question, script)?;
            Ok(Some(outcome))
        }
        Ok(None) => Ok(None),
        Err(Unread::Flaw(misread)) => Ok(Some(Err(Unanswered::NotUnderstood(misread)))),
        Err(Unread::NoMemory(error)) => Err(error),
    }
}
