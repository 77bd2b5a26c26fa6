ghost use Rattle.std.specs.Prelude.{◌≤◌};

/// How many units a rack has.
#[derive(Clone, Copy)]
pub struct Units {
    pub n: u32,
    ghost least: { 4 ≤ n },
    ghost most: { n ≤ 21 },
}
