//! The words of a line read as a question.
ghost use Rattle.std.specs.Prelude.{◌≡◌, ◌<◌, vec_items};
ghost use Rattle.sheets.specs.Asked.{seen};
ghost use Rattle.sheets.specs.Questions.{code_of, right_of, value_right_of, value_trigger_of, value_of, place_of, numbers as numbers_of, letter_of, vote_of, question_of};
ghost use Rattle.sheets.specs.Topics.{topic};
ghost use Rattle.fields.specs.Steps.{Present, from};
ghost use Rattle.sheets.specs.Reading.{Gives};
ghost use Rattle.words.specs.Words.{texts};

use crate::forms::{Question, RightName, Topic, Unread};
use fields::{Field, KindName, Misread, NumberedWord, VoteName, at_least, exactly, read, word};
use kinds::Slope;
use lines::{Record, Way};
use std::alloc::Global;

fn code(words: &[&[u8]]) -> Result<Question, Unread>
    ensures { Gives seen result (code_of (texts words.now)) }
{
    exactly(words, 3)?;
    let kind = read::<KindName>(words, 2)?;
    let code = read::<u32>(words, 3)?;
    Ok(Question::Code { kind, code })
}

/// The right that word 3 names, with its minutes.
fn right(words: &[&[u8]]) -> Result<RightName, Misread>
    ensures { result ≡ right_of (texts words.now) }
{
    at_least(words, 3)?;
    match word(words, 3).text {
        b"withdrawn" => exactly(words, 3).map(|()| RightName::Withdrawn),
        b"watch" => exactly(words, 3).map(|()| RightName::Watch),
        b"operate" => {
            exactly(words, 4)?;
            read::<u32>(words, 4).map(|minutes| RightName::Operate { minutes })
        }
        _ => Err(Misread::UnknownWord(3)),
    }
}

fn value_right(words: &[&[u8]]) -> Result<Question, Unread>
    ensures { Gives seen result (value_right_of (texts words.now)) }
{
    let right = right(words)?;
    Ok(Question::ValueRight { right })
}

fn value_trigger(words: &[&[u8]]) -> Result<Question, Unread>
    ensures { Gives seen result (value_trigger_of (texts words.now)) }
{
    exactly(words, 5)?;
    let channel = read::<u32>(words, 3)?;
    let slope = read::<Slope>(words, 4)?;
    let level = read::<i32>(words, 5)?;
    Ok(Question::ValueTrigger {
        channel,
        slope,
        level,
    })
}

fn value(words: &[&[u8]]) -> Result<Question, Unread>
    ensures { Gives seen result (value_of (texts words.now)) }
{
    at_least(words, 2)?;
    // Which words follow hangs on the second, so that the function is picked here.
    match read::<KindName>(words, 2)? {
        KindName::Right => value_right(words),
        KindName::Trigger => value_trigger(words),
    }
}

/// The numbers after the first word, of which there are `K`.
fn numbers<const K: usize>(words: &[&[u8]]) -> Result<[u32; K], Misread>
    requires { K < 100 }
    ensures { result ≡ numbers_of K (texts words.now) }
{
    exactly(words, K + 1)?;
    let mut numbers = [0; K];
    for (k, slot) in numbers.iter_mut().enumerate() {
        *slot = read::<u32>(words, k + 2)?;
    }
    Ok(numbers)
}

/// The way and the code of a letter.
fn letter(words: &[&[u8]]) -> Result<Record, Misread>
    ensures { result ≡ letter_of (texts words.now) }
{
    let [round, from, to, place, code] = numbers::<5>(words)?;
    Ok(Record {
        way: Way {
            round,
            from,
            to,
            place,
        },
        code,
    })
}

/// Word `first` and those after it, each read as a `T`.
fn all_from<T: Field>(heap: Global, words: &[&[u8]], first: usize) -> Result<Vec<T>, Unread>
    requires { 0 < first }
    ensures { Gives vec_items result (from T.reads (texts words.now) first) }
{
    let mut all = Vec::new(heap);
    for (i, text) in words.iter().enumerate().skip(first - 1) {
        let number = i + 1;
        all.push(T::of(NumberedWord { text, number })?)?;
    }
    Ok(all)
}

fn place(heap: Global, words: &[&[u8]]) -> Result<Question, Unread>
    ensures { Gives seen result (place_of (texts words.now)) }
{
    at_least(words, 4)?;
    let n = read::<u32>(words, 2)?;
    let source = read::<u32>(words, 3)?;
    let units = all_from::<u32>(heap, words, 4)?;
    Ok(Question::Place { n, source, units })
}

fn vote(heap: Global, words: &[&[u8]]) -> Result<Question, Unread>
    ensures { Gives seen result (vote_of (texts words.now)) }
{
    at_least(words, 4)?;
    let kind = read::<KindName>(words, 2)?;
    let vote = read::<VoteName>(words, 3)?;
    let t = read::<u32>(words, 4)?;
    let entries = all_from::<Option<u32>>(heap, words, 5)?;
    Ok(Question::Vote {
        kind,
        vote,
        t,
        entries,
    })
}

/// The question that the first word names.
// That there is a word is asked here too: the reader of a line has seen it, and a type that holds it would be made for this call.
pub(crate) fn question(heap: Global, words: &[&[u8]]) -> Result<Question, Unread>
    requires { Present words.now 1 }
    ensures { Gives seen result (question_of (texts words.now)) }
{
    match read::<Topic>(words, 1)? {
        Topic::Code => code(words),
        Topic::Value => value(words),
        Topic::Place => place(heap, words),
        Topic::Sequence => {
            let [n, source, level, place] = numbers::<4>(words)?;
            Ok(Question::Sequence {
                n,
                source,
                level,
                place,
            })
        }
        Topic::Plan => {
            let [n, t, gear, source] = numbers::<4>(words)?;
            Ok(Question::Plan { n, t, gear, source })
        }
        Topic::Vote => vote(heap, words),
        Topic::Letter => Ok(Question::AddLetter(letter(words)?)),
        Topic::Arrives => {
            let Record { way, code } = letter(words)?;
            Ok(Question::Arrives { way, code })
        }
    }
}

impl Field for Topic {
    ghost reads = { topic };

    fn of(word: NumberedWord<'_>) -> Result<Topic, Misread> {
        match word.text {
            b"code" => Ok(Topic::Code),
            b"value" => Ok(Topic::Value),
            b"place" => Ok(Topic::Place),
            b"sequence" => Ok(Topic::Sequence),
            b"plan" => Ok(Topic::Plan),
            b"vote" => Ok(Topic::Vote),
            b"letter" => Ok(Topic::Letter),
            b"arrives" => Ok(Topic::Arrives),
            _ => Err(Misread::UnknownQuestion),
        }
    }
}
