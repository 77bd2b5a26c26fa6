//! Trees of values in memory: unit after unit, level after level, a level in the order of its places.
#![tactic(auto)]

ghost use Rattle.trees.specs.Laws.{LaysBack, ReadsBack};

use kinds::Kind;

/// The two laws of the layout: reading what was laid out gives it back, and a memory is the layout of what it reads.
pub fn layout_laws<K: Kind>()
    ensures reads { ReadsBack K }
    ensures lays { LaysBack K }
{}
