ghost use Rattle.votes.specs.Meanings.{threshold};
ghost use Rattle.votes.specs.VoteLaws.{threshold_first};

use crate::Vote;
use crate::support::{first_with, is_only};
use kinds::Kind;

/// The only value with at least t + 1 entries, else open.
#[derive(Clone, Copy)]
pub struct Threshold;

impl<K: Kind> Vote<K> for Threshold {
    ghost answer = { λ _. threshold K.Kind.model };

    ghost first = { λ v. threshold_first K.Kind.model K.Kind.lawful };

    fn vote(&self, entries: &[Option<K>], t: u32) -> Option<K> {
        let least = t as usize + 1;
        first_with(entries, least).filter(|x| is_only(entries, least, x))
    }
}
