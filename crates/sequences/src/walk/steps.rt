ghost use Rattle.std.specs.Prelude.{◌≡◌, ℕ, ◌+◌, ◌-◌, ◌*◌, ◌<◌, ◌≤◌, false, length, MatchOption};
ghost use Rattle.masks.specs.Masks.{holds};
ghost use Rattle.sequences.specs.Sequences.{sequences};
ghost use Rattle.sequences.specs.Units.{free};

use crate::level::Level;
use crate::ranks::units_at;
use crate::walk::Walk;
use masks::{has, with};

// The lowest unit from x on that the mask leaves out, if there is one.
fn absent_from(mask: u32, n: u32, x: u32) -> Option<u32>
    requires { x ≤ n }
    ensures { MatchOption result (length (free mask n) ≡ length (free mask x))
        (λ y. (y < n) × (holds mask y ≡ false) × (length (free mask y) ≡ length (free mask x))) }
{
    (x..n).find(|&y| !has(mask, y))
}

// The first child of the sequence at the parent's place.
fn first_under(level: Level, parent: u32, place: u32, left: u32) -> Walk
    requires below { 0 < level.depth }
    requires low { parent < length (sequences level.units.n level.source (level.depth - 1)) }
    requires first { place ≡ parent * (level.units.n - level.depth) }
    requires rest { place + 1 + left ≡ length (sequences level.units.n level.source level.depth) }
    ensures level { result.level ≡ level }
    ensures place { result.place ≡ place }
{
    let n = level.units.n;
    let above = units_at(n, level.source, level.depth - 1, parent);
    let last = absent_from(above, n, 0).unwrap();
    Walk {
        units: with(above, last),
        last,
        level,
        place,
        left,
        parent,
        above,
    }
}

impl Walk {
    /// The walk at place 0 of a level.
    pub fn begin(level: Level) -> Walk
        ensures level { result.level ≡ level }
        ensures place { result.place ≡ 0 }
    {
        if level.depth > 0 {
            let left = level.units.width(level.depth + 1) - 1;
            return first_under(level, 0, 0, left);
        }
        Walk {
            units: with(0, level.source),
            last: level.source,
            level,
            place: 0,
            left: 0,
            parent: 0,
            above: 0,
        }
    }

    /// The walk at the next place; nothing at the level's last place.
    pub fn following(self) -> Option<Walk>
        ensures { MatchOption result
            (self.place + 1 ≡ length (sequences self.level.units.n self.level.source self.level.depth))
            (λ walk. (walk.level ≡ self.level) × (walk.place ≡ self.place + 1)) }
    {
        if self.left == 0 {
            return None;
        }
        let place = self.place + 1;
        let left = self.left - 1;
        let Some(last) = absent_from(self.above, self.level.units.n, self.last + 1) else {
            return Some(first_under(self.level, self.parent + 1, place, left));
        };
        Some(Walk {
            units: with(self.above, last),
            last,
            level: self.level,
            place,
            left,
            parent: self.parent,
            above: self.above,
        })
    }

    /// The walk at the next place, or where it is if that is the level's last.
    pub fn next(self) -> Walk
        ensures level { result.level ≡ self.level }
        ensures place { self.place + 1 < length (sequences self.level.units.n self.level.source self.level.depth) → result.place ≡ self.place + 1 }
        ensures last { self.place + 1 ≡ length (sequences self.level.units.n self.level.source self.level.depth) → result ≡ self }
    {
        self.following().unwrap_or(self)
    }
}
