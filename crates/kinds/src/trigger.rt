ghost use Rattle.std.specs.Prelude.{◌≤◌, pos, negsuc, ◌≤ℤ◌};

mod coding;
mod text;

/// The direction in which the signal crosses the level.
#[derive(Clone, Copy, Debug, PartialEq, Eq)]
pub enum Slope {
    Rising = 0,
    Falling = 1,
}

/// A channel from 1 to 4, a slope, and a level from -2048 to 2047 steps; this type has no other value.
#[derive(Clone, Copy, Debug, PartialEq, Eq)]
pub struct Trigger {
    pub channel: u8,
    pub slope: Slope,
    pub level: i16,
    ghost ok: { ((1 ≤ channel) × (channel ≤ 4)) × ((negsuc 2047 ≤ℤ level) × (level ≤ℤ pos 2047)) },
}
