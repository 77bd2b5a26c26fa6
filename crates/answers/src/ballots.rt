//! A vote on typed codes.
ghost use Rattle.std.specs.Prelude.{◌≡◌, IfOk, vec_items};
ghost use Rattle.answers.specs.Ballots.{Yields, entries_of, entry_of, polled, poll_reply, vote_named, vote_reply};
ghost use Rattle.answers.specs.Replies.{replied};

use crate::forms::{Answer, Shown, Unvoted};
use fields::{KindName, VoteName};
use kinds::{Kind, Right, Trigger};
use std::alloc::{AllocError, Global};
use votes::{Majority, Threshold, Vote};

// The entry that a code stands for.
fn entry_of<K: Kind>(code: Option<u32>) -> Result<Option<K>, u32>
    ensures { result ≡ entry_of K.Kind.model code }
{
    code.map(|c| K::read(c).ok_or(c)).transpose()
}

// The entries that codes stand for.
fn entries_of<K: Kind>(heap: Global, codes: &[Option<u32>]) -> Result<Vec<Option<K>>, Unvoted>
    ensures { Yields vec_items result (entries_of K.Kind.model codes.now) }
{
    let mut entries = Vec::new(heap);
    for code in codes {
        let entry = entry_of::<K>(*code).map_err(Unvoted::NoValue)?;
        entries.push(entry)?;
    }
    Ok(entries)
}

// What the vote with this name answers. A `&dyn Vote<K>` that is picked by the name would need the same `match`.
fn vote_named<K: Kind>(name: VoteName, entries: &[Option<K>], t: u32) -> Option<K>
    ensures { result ≡ vote_named name K.Kind.model entries.now t }
{
    match name {
        VoteName::Majority => Majority.vote(entries, t),
        VoteName::Threshold => Threshold.vote(entries, t),
    }
}

// What the vote answers on these codes. The vote, t and the codes go through three functions to one vote:
// a struct for them would be made and taken apart once.
fn poll<K: Kind>(
    heap: Global,
    name: VoteName,
    t: u32,
    codes: &[Option<u32>],
) -> Result<Option<K>, Unvoted>
    ensures { Yields (λ o. o) result (polled K.Kind.model name t codes.now) }
{
    let entries = entries_of::<K>(heap, codes)?;
    Ok(vote_named(name, entries.as_slice(), t))
}

// The answer of a vote on codes of one kind. A code without a value is an answer and lack of memory is none, so that `?` cannot
// part the two.
fn poll_answer<K: Shown>(
    heap: Global,
    kind: KindName,
    name: VoteName,
    t: u32,
    codes: &[Option<u32>],
) -> Result<Answer, AllocError>
    ensures { IfOk result (λ a. replied a ≡ poll_reply kind K.Shown.as_value (polled K.Kind.model name t codes.now)) }
{
    match poll::<K>(heap, name, t, codes) {
        Ok(voted) => Ok(Answer::Vote(voted.map(|value| value.value()))),
        Err(Unvoted::NoValue(code)) => Ok(Answer::NoValue { kind, code }),
        Err(Unvoted::NoMemory(error)) => Err(error),
    }
}

// The answer of a vote on codes. The kind is known only when the program runs, so that the type is picked here.
pub(crate) fn vote_answer(
    heap: Global,
    kind: KindName,
    name: VoteName,
    t: u32,
    codes: &[Option<u32>],
) -> Result<Answer, AllocError>
    ensures { IfOk result (λ a. replied a ≡ vote_reply kind name t codes.now) }
{
    match kind {
        KindName::Right => poll_answer::<Right>(heap, kind, name, t, codes),
        KindName::Trigger => poll_answer::<Trigger>(heap, kind, name, t, codes),
    }
}
