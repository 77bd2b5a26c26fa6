ghost use Rattle.std.specs.Prelude.{◌≡◌, ℕ, ◌+◌, ◌-◌, ◌*◌, ◌<◌, ◌≤◌, [], ◌∷◌, ◌++◌, reverse, length, IfOk, Ok, slice_index_or};
ghost use Rattle.std.specs.Result.{result_map_both};
ghost use Rattle.places.specs.Answers.{shape_parts, shape_answer, width_answer, has_place, sequence_at, sequence_answer, begun, place_answer, back_answer, child_answer, entry_answer};
ghost use Rattle.places.specs.Numbers.{has_level};
ghost use Rattle.sequences.specs.Sequences.{sequences};
ghost use Rattle.sequences.specs.Sizes.{tree_size};

use crate::fault::PlaceFault;
use crate::sequence::Sequence;
use crate::shape::Shape;
use crate::units_wrong;
use masks::{has, with};
use sequences::ranks::{absent_below, last_at, nth_absent, units_at};
use sequences::units::Units;

// The most levels a tree has.
const MOST_LEVELS: u32 = 4;

impl Shape {
    /// Trees of 1 to 4 levels over n units; refused by 1 (n), 4 (source) or 13 (levels).
    pub fn new(n: u32, source: u32, levels: u32) -> Result<Shape, PlaceFault>
        ensures { result_map_both shape_parts (λ e. e) result ≡ shape_answer n source levels }
    {
        if units_wrong(n) {
            return Err(PlaceFault::Units);
        }
        if n <= source {
            return Err(PlaceFault::Source);
        }
        if !(1..=MOST_LEVELS).contains(&levels) {
            return Err(PlaceFault::Absent);
        }
        Ok(Shape { n, source, levels })
    }

    // How many units the rack has.
    fn units(self) -> Units
        ensures { result.n ≡ self.n }
    {
        Units { n: self.n }
    }

    // Whether a tree has the level.
    fn has_level(self, level: u32) -> bool
        ensures { result ≡ has_level self.levels level }
    {
        (1..=self.levels).contains(&level)
    }

    /// How many sequences a level has.
    pub fn width(self, level: u32) -> Result<u32, PlaceFault>
        ensures value { result ≡ width_answer self.n self.levels level }
        ensures bound { IfOk result (λ wide. wide ≤ 6840) }
    {
        if !self.has_level(level) {
            return Err(PlaceFault::Absent);
        }
        Ok(self.units().width(level))
    }

    // Whether the level exists and has the place.
    fn has_place(self, level: u32, place: u32) -> bool
        ensures { result ≡ has_place self.n self.levels level place }
    {
        self.has_level(level) && place < self.units().width(level)
    }

    /// The way back from a place: the last unit of its sequence, and the place of the parent. The root has none.
    pub fn way_back(self, level: u32, place: u32) -> Result<(u32, u32), PlaceFault>
        ensures { result ≡ back_answer self.n self.source self.levels level place }
    {
        if level < 2 || !self.has_place(level, place) {
            return Err(PlaceFault::Absent);
        }
        let depth = level - 1;
        let last = last_at(self.n, self.source, depth, place);
        Ok((last, place / (self.n - depth)))
    }

    /// The sequence at a place. Its own place is the one asked for.
    pub fn sequence(self, level: u32, place: u32) -> Result<Sequence, PlaceFault>
        ensures value { result ≡ sequence_answer self.n self.source self.levels level place }
        ensures back { IfOk result (λ found. place_answer self.n self.source self.levels found ≡ Ok place) }
    {
        if !self.has_place(level, place) {
            return Err(PlaceFault::Absent);
        }
        Ok(sequence_at(self, level - 1, place))
    }

    // Whether the units are as many as a level's, and the first is the source.
    fn begins(self, units: &[u32]) -> bool
        ensures { result ≡ begun self.source self.levels units.now }
    {
        units.len() <= self.levels as usize && units.first() == Some(&self.source)
    }

    /// The place of a sequence, which is given with the source first, in the level of as many units. The sequence at that place is the one given.
    pub fn place(self, units: &[u32]) -> Result<u32, PlaceFault>
        ensures value { result ≡ place_answer self.n self.source self.levels units.now }
        ensures back { IfOk result (λ found. sequence_at self.n self.source (length units.now) found ≡ reverse units.now) }
        ensures bound { IfOk result (λ found. found < 6840) }
    {
        if !self.begins(units) {
            return Err(PlaceFault::Absent);
        }
        let mut seen = with(0, self.source);
        let mut place = 0;
        for (k, &unit) in units[1..].iter().enumerate() {
            if unit >= self.n || has(seen, unit) {
                return Err(PlaceFault::Absent);
            }
            let i = k + 1;
            place = place * (self.n - i as u32) + absent_below(seen, unit);
            seen = with(seen, unit);
        }
        Ok(place)
    }

    /// Child j of the sequence at a place: the unit in which it ends, and its place of the next level.
    pub fn child(self, level: u32, place: u32, j: u32) -> Result<(u32, u32), PlaceFault>
        ensures value { result ≡ child_answer self.n self.source self.levels level place j }
        ensures stands { IfOk result (λ child. sequence_at self.n self.source (level + 1) child.1 ≡ child.0 ∷ sequence_at self.n self.source level place) }
    {
        if level >= self.levels || !self.has_place(level, place) || j >= self.n - level {
            return Err(PlaceFault::Absent);
        }
        let units = units_at(self.n, self.source, level - 1, place);
        Ok((nth_absent(units, self.n, j), place * (self.n - level) + j))
    }

    /// How many values a unit's tree has.
    pub fn tree_size(self) -> u32
        ensures value { result ≡ tree_size self.n self.levels }
        ensures bound { result ≤ 7241 }
    {
        self.units().tree_size(self.levels)
    }

    /// How many values the trees of all units have.
    pub fn values(self) -> u32
        ensures value { result ≡ self.n * tree_size self.n self.levels }
        ensures bound { result ≤ 152061 }
    {
        self.n * self.tree_size()
    }

    /// The first entry of a unit's level, in a memory of trees unit after unit, level after level.
    pub fn first_entry(self, unit: u32, level: u32) -> Result<u32, PlaceFault>
        ensures value { result ≡ entry_answer self.n self.levels unit level }
        ensures bound { IfOk result (λ entry. entry ≤ 152061) }
    {
        if unit >= self.n || !self.has_level(level) {
            return Err(PlaceFault::Absent);
        }
        Ok(unit * self.tree_size() + self.units().tree_size(level - 1))
    }
}

// The sequence at a place, `depth` steps below the root. That there is such a place is asked here as in `sequences`, where n goes up to 32.
fn sequence_at(shape: Shape, depth: u32, place: u32) -> Sequence
    requires deep { depth < shape.levels }
    requires low { place < length (sequences shape.n shape.source depth) }
    ensures level { length result ≡ depth + 1 }
    ensures units { result ≡ reverse (slice_index_or (sequences shape.n shape.source depth) place []) }
{
    if depth == 0 {
        return Sequence {
            units: [shape.source, 0, 0, 0],
            level: 1,
        };
    }
    let parent = sequence_at(shape, depth - 1, place / (shape.n - depth));
    lengthened(parent, last_at(shape.n, shape.source, depth, place))
}

// A sequence with one unit more at its end.
fn lengthened(sequence: Sequence, last: u32) -> Sequence
    requires { length sequence < 4 }
    ensures { result ≡ sequence ++ last ∷ [] }
{
    let mut units = sequence.units;
    units[sequence.level as usize] = last;
    Sequence {
        units,
        level: sequence.level + 1,
    }
}
