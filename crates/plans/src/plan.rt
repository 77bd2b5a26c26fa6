ghost use Rattle.std.specs.Prelude.{◌≡◌, true};
ghost use Rattle.plans.specs.Numbers.{opens};

/// The numbers of a run that a rack can be opened with: n units, of which at most t may be loose, the gear, and the source.
// The gear stays a number: a block has as many rounds, a sheet writes the number, and gear 1 or above 3 is refused by number 2. An enum `Whole | Blocks(u32)` would stand beside the number in each of these, and the five tests of gear 0 would be matches.
#[derive(Clone, Copy)]
pub struct Plan {
    pub n: u32,
    pub t: u32,
    pub gear: u32,
    pub source: u32,
    ghost ok: { opens n t gear source ≡ true },
}
