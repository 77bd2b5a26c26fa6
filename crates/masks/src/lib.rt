//! Masks: sets of units as 32-bit numbers, bit i for unit i.
#![tactic(auto)]

ghost use Rattle.std.specs.Prelude.{◌≡◌, ℕ, ◌^◌, ◌&&◌, ◌||◌, ◌==◌, bit_or, nat_lt};
ghost use Rattle.masks.specs.Masks.{holds, joined_by, size, within};

// How many units a mask has bits for.
const BITS: u32 = 32;

/// Whether the mask holds the unit; no mask holds a unit above 31.
pub fn has(mask: u32, unit: u32) -> bool
    ensures { result ≡ holds mask unit }
{
    unit < BITS && (mask >> unit) % 2 == 1
}

/// The mask of the units that either mask holds.
pub fn join(a: u32, b: u32) -> u32
    ensures value { result ≡ bit_or a b }
    ensures units { (i : ℕ) → holds result i ≡ (holds a i || holds b i) }
{
    a | b
}

/// The mask with one unit more; a unit above 31 adds nothing.
pub fn with(mask: u32, unit: u32) -> u32
    ensures value { result ≡ joined_by mask unit }
    ensures units { (i : ℕ) → holds result i ≡ (holds mask i || (nat_lt unit 32 && unit == i)) }
{
    if unit < BITS { mask | 1 << unit } else { mask }
}

/// How many units the mask holds.
pub fn count(mask: u32) -> u32
    ensures { result ≡ size mask }
{
    mask.count_ones()
}

/// Whether every unit of the mask is below n.
pub fn all_below(mask: u32, n: u32) -> bool
    ensures value { result ≡ within mask n }
    ensures number { result ≡ nat_lt mask (2 ^ n) }
{
    n >= BITS || mask >> n == 0
}
