ghost use Rattle.std.specs.Prelude.{◌≤◌, length};

mod calls;
mod lookup;
mod room;

use crate::way::Way;

/// What arrives on a way in place of the given code.
#[derive(Clone, Copy, Default, PartialEq, Eq, Debug)]
pub struct Record {
    pub way: Way,
    /// What arrives; 4294967295 means that nothing does.
    // A number, as a file or a sheet holds it: `Option<u32>` would have one value too many, `Some(4294967295)`.
    pub code: u32,
}

/// A line whose records tell what arrives from its loose units. The records are the first `used` entries of a lent table.
// The table is lent memory, since a script allocates nothing, so that the count of its records stands beside it.
// No `Model`: tried with the loan's name in its `Value`, and then who lent the table does not learn what a dropped script left in it.
// So `Becomes`, in the contracts, says of each call that the table is the same loan.
#[derive(Drop)]
pub struct Script<'a> {
    table: &'a mut [Record],
    used: usize,
    loose: u32,
    ghost inside: { used ≤ length table.now },
    ghost few: { used ≤ 65535 },
}
