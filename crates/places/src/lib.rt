//! Where values stand: sequences of units, their levels and places, and the sizes of trees.
#![tactic(auto)]

ghost use Rattle.std.specs.Prelude.{◌≡◌};
ghost use Rattle.places.specs.Numbers.{units_wrong};

pub mod fault;
mod lookups;
pub mod sequence;
pub mod shape;

/// Whether a rack cannot have n units: it has 4 to 21.
pub fn units_wrong(n: u32) -> bool
    ensures { result ≡ units_wrong n }
{
    !(4..=21).contains(&n)
}
