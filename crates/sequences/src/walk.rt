ghost use Rattle.sequences.specs.Walks.{On};

mod steps;

use crate::level::Level;

/// A walk through the sequences of a level in the order of their places: the place that it has come to, and the sequence there.
#[derive(Clone, Copy)]
pub struct Walk {
    /// the mask of the sequence's units
    pub units: u32,
    /// the last of them
    pub last: u32,
    /// the level that the walk goes through
    pub level: Level,
    /// the place of the sequence in its level
    pub place: u32,
    // how many places follow it, and the parent's place and units; at the root, where no place follows, these two are 0,
    // since an `Option` would have to be taken apart at each step
    left: u32,
    parent: u32,
    above: u32,
    pub ghost on: { On level.units.n level.source level.depth place left units last parent above },
}
