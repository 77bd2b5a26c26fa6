ghost use Rattle.votes.specs.Meanings.{majority};
ghost use Rattle.votes.specs.VoteLaws.{majority_first};

use crate::support::first_with;
use crate::{StrongVote, Vote};
use kinds::Kind;

/// The value in more than half of the entries, else ground.
#[derive(Clone, Copy)]
pub struct Majority;

impl<K: Kind> Vote<K> for Majority {
    ghost answer = { λ _. majority K.Kind.model };

    ghost first = { λ v. majority_first K.Kind.model K.Kind.lawful };

    #[tactic(auto, using(crate::specs::VoteLaws::most_first))]
    fn vote(&self, entries: &[Option<K>], t: u32) -> Option<K> {
        let most = first_with(entries, entries.len() / 2 + 1);
        Some(most.unwrap_or(K::ground()))
    }
}

impl<K: Kind> StrongVote<K> for Majority {
    fn majority_law(&self) {}
}
