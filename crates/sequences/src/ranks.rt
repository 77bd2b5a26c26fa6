ghost use Rattle.std.specs.Prelude.{◌≡◌, ◌-◌, ◌/◌, ◌<◌, ◌≤◌, [], ◌∷◌, length, slice_index, slice_index_or};
ghost use Rattle.std.specs.List.{slice_get};
ghost use Rattle.sequences.specs.Sequences.{sequences};
ghost use Rattle.sequences.specs.Units.{Shows, free};

use masks::{has, with};

/// How many units below `w` the mask leaves out.
pub fn absent_below(mask: u32, w: u32) -> u32
    requires { w < 32 }
    ensures { result ≡ length (free mask w) }
{
    w - (mask & ((1 << w) - 1)).count_ones()
}

// The j-th lowest unit below n, from 0, that the mask leaves out, if it leaves out as many.
// Mask and n stand apart here and in the walk: the mask is another one at each call.
fn absent_at(mask: u32, n: u32, j: u32) -> Option<u32>
    ensures { result ≡ slice_get (free mask n) j }
{
    // Counted by hand, since `filter` with `nth` takes longer.
    let mut seen = 0;
    for x in 0..n {
        if !has(mask, x) {
            if seen == j {
                return Some(x);
            }
            seen += 1;
        }
    }
    None
}

/// The j-th lowest unit below n, from 0, that the mask leaves out.
pub fn nth_absent(mask: u32, n: u32, j: u32) -> u32
    requires { j < length (free mask n) }
    ensures { result ≡ slice_index (free mask n) j }
{
    absent_at(mask, n, j).unwrap()
}

/// The mask of the units of the sequence at a place, `depth` steps below the root.
// The numbers are plain, since a `Level` holds n to 21 and this answers up to 32.
pub fn units_at(n: u32, source: u32, depth: u32, place: u32) -> u32
    requires most { n ≤ 32 }
    requires within { source < n }
    requires deep { depth < n }
    requires low { place < length (sequences n source depth) }
    ensures { Shows result (slice_index_or (sequences n source depth) place []) }
{
    if depth == 0 {
        with(0, source)
    } else {
        let fan = n - depth;
        let above = units_at(n, source, depth - 1, place / fan);
        let last = nth_absent(above, n, place % fan);
        with(above, last)
    }
}

/// The last unit of the sequence at a place, `depth` steps below the root.
// The numbers are plain for the same reason.
pub fn last_at(n: u32, source: u32, depth: u32, place: u32) -> u32
    requires below { 0 < depth }
    requires most { n ≤ 32 }
    requires within { source < n }
    requires deep { depth < n }
    requires low { place < length (sequences n source depth) }
    ensures { slice_index_or (sequences n source depth) place [] ≡ result ∷ slice_index_or (sequences n source (depth - 1)) (place / (n - depth)) [] }
{
    let fan = n - depth;
    nth_absent(units_at(n, source, depth - 1, place / fan), n, place % fan)
}
