ghost use Rattle.std.specs.Prelude.{◌<◌, ◌≤◌};

/// What the trees of a rack are over: how many units, which of them is the source, how many levels a tree has.
// The facts on n and source are those of `Units` and `Level`: the promises name the two as fields of the shape.
#[derive(Clone, Copy)]
pub struct Shape {
    pub n: u32,
    pub source: u32,
    pub levels: u32,
    ghost least: { 4 ≤ n },
    ghost most: { n ≤ 21 },
    ghost within: { source < n },
    ghost some: { 1 ≤ levels },
    ghost few: { levels ≤ 4 },
}
