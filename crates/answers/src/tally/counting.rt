ghost use Rattle.std.specs.Prelude.{◌≡◌};
ghost use Rattle.answers.specs.Tallies.{counted};

use crate::forms::{Outcome, Unanswered};
use crate::tally::Tally;

impl Tally {
    /// Nothing counted yet.
    pub fn new() -> Tally
        ensures { result ≡ record { answered = 0; refused = 0; unclear = 0 } }
    {
        Tally {
            answered: 0,
            refused: 0,
            unclear: 0,
        }
    }

    /// Counts what became of one line.
    pub fn count(&mut self, outcome: &Outcome)
        ensures { self.new ≡ counted self.old outcome.now }
    {
        match outcome {
            Ok(_) => self.answered = self.answered.saturating_add(1),
            Err(Unanswered::Refused(_)) => self.refused = self.refused.saturating_add(1),
            Err(Unanswered::NotUnderstood(_)) => self.unclear = self.unclear.saturating_add(1),
        }
    }
}
