ghost use Rattle.std.specs.Prelude.{◌<◌, ◌≤◌};

use crate::units::Units;

/// A level of the sequences of a rack's units: those `depth` steps below the root, which is the source alone.
#[derive(Clone, Copy)]
pub struct Level {
    pub units: Units,
    pub source: u32,
    pub depth: u32,
    ghost within: { source < units.n },
    ghost deep: { depth ≤ 3 },
}
