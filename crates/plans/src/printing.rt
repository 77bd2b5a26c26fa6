//! Prints plans.
ghost use Rattle.std.specs.Prelude.{Some};
ghost use Rattle.plans.specs.Texts.{blocks_text, plan_text};

use crate::plan::Plan;
use std::fmt;

// The blocks of a run, printed by the rounds of each.
#[derive(Clone, Copy)]
struct Blocks {
    plan: Plan,
}

impl fmt::Display for Blocks {
    ghost output = { λ blocks. Some (blocks_text blocks.plan.t blocks.plan.gear) };

    fn fmt<W: fmt::Write>(&self, f: &mut fmt::Formatter<W>) -> fmt::Result {
        let plan = self.plan;
        // Over `(0..plan.rounds()).filter_map(|i| plan.block(i))` the check cannot state an invariant here.
        for i in 0..plan.rounds() {
            if let Some(block) = plan.block(i) {
                write!(f, " {block}")?;
            }
        }
        Ok(())
    }
}

impl fmt::Display for Plan {
    ghost output = { λ plan. Some (plan_text plan.n plan.t plan.gear) };

    fn fmt<W: fmt::Write>(&self, f: &mut fmt::Formatter<W>) -> fmt::Result {
        let rounds = self.rounds();
        let blocks = Blocks { plan: *self };
        let shape = self.shape();
        let size = shape.tree_size();
        let values = shape.values();
        write!(
            f,
            "rounds {rounds}, blocks{blocks}, {size} values a unit, {values} values in all"
        )
    }
}
