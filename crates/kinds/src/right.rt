ghost use Rattle.std.specs.Prelude.{◌≤◌};

mod coding;
mod text;

/// From 1 to 60 minutes; this type has no other value.
#[derive(Clone, Copy, Debug, PartialEq, Eq)]
pub struct Minutes {
    pub count: u8,
    ghost ok: { (1 ≤ count) × (count ≤ 60) },
}

/// What a user may do with an oscilloscope.
#[derive(Clone, Copy, Debug, PartialEq, Eq)]
pub enum Right {
    Withdrawn,
    Watch,
    Operate(Minutes),
}
