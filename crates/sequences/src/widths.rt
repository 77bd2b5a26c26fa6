ghost use Rattle.std.specs.Prelude.{◌≡◌, ◌≤◌, true};
ghost use Rattle.sequences.specs.Sizes.{tree_size};
ghost use Rattle.sequences.specs.Tables.{ruled, is_width};
ghost use Rattle.sequences.specs.Widths.{width};

use crate::units::Units;

// The widths of levels 1 to 4, a row for each n from 4 to 21.
const WIDTHS: [[u32; 4]; 18] = [
    [1, 3, 6, 6],
    [1, 4, 12, 24],
    [1, 5, 20, 60],
    [1, 6, 30, 120],
    [1, 7, 42, 210],
    [1, 8, 56, 336],
    [1, 9, 72, 504],
    [1, 10, 90, 720],
    [1, 11, 110, 990],
    [1, 12, 132, 1320],
    [1, 13, 156, 1716],
    [1, 14, 182, 2184],
    [1, 15, 210, 2730],
    [1, 16, 240, 3360],
    [1, 17, 272, 4080],
    [1, 18, 306, 4896],
    [1, 19, 342, 5814],
    [1, 20, 380, 6840],
];

// An entry of a table that follows the rule of the widths. The rounds of `plans` are read in the same way:
// one function for both would need a trait that holds the rule, with a type and an `impl` for each table.
fn entry(rows: &[[u32; 4]], units: Units, level: u32) -> u32
    requires rule { ruled is_width 18 4 rows.now ≡ true }
    requires low { 1 ≤ level }
    requires high { level ≤ 4 }
    ensures { result ≡ width units.n level }
{
    rows[(units.n - 4) as usize][(level - 1) as usize]
}

impl Units {
    /// How many sequences a level has, of levels 1 to 4.
    pub fn width(self, level: u32) -> u32
        requires low { 1 ≤ level }
        requires high { level ≤ 4 }
        ensures value { result ≡ width self.n level }
        ensures bound { result ≤ 6840 }
    {
        entry(&WIDTHS, self, level)
    }

    /// How many values the first h levels of a tree have.
    pub fn tree_size(self, h: u32) -> u32
        requires { h ≤ 4 }
        ensures value { result ≡ tree_size self.n h }
        ensures bound { result ≤ 7241 }
    {
        (1..h + 1).map(|level| self.width(level)).sum()
    }
}
