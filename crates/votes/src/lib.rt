//! Votes: a vote makes one answer from entries, each a value or open, and a number t.
#![tactic(auto)]

ghost use Rattle.std.specs.Prelude.{◌≡◌};
ghost use Rattle.votes.specs.Laws.{Answer, FirstLaw, MajorityLaw};

use kinds::Kind;

mod majority;
mod support;
mod threshold;

pub use majority::Majority;
pub use support::support_of;
pub use threshold::Threshold;

/// A vote on values of a kind. It keeps the first law: if there are at least 2t + 1 entries and all but at most t
/// are one value, that value is the answer.
pub trait Vote<K: Kind> {
    ghost answer: { Self → Answer K };

    /// The answer to these entries, a value or open.
    fn vote(&self, entries: &[Option<K>], t: u32) -> Option<K>
        ensures { result ≡ answer self.now entries.now t };

    ghost first: { (v : Self) → FirstLaw K.Kind.model (answer v) };
}

/// A vote that answers a value in more than half of the entries, wherever there is one.
pub trait StrongVote<K: Kind>: Vote<K> {
    /// Does nothing; it promises the majority law of what the vote answers.
    fn majority_law(&self)
        ensures { MajorityLaw K.Kind.model (Self.Vote.answer self.now) };
}
