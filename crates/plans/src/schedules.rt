ghost use Rattle.std.specs.Prelude.{◌≡◌, ◌+◌, ◌-◌, ◌%◌, ◌≤◌, true, ◌&&◌, ◌==◌, nat_le, nat_lt};
ghost use Rattle.std.specs.List.{slice_get};
ghost use Rattle.std.specs.Result.{result_map_both};
ghost use Rattle.plans.specs.Answers.{plan_parts, plan_answer};
ghost use Rattle.places.specs.Answers.{shape_parts};
ghost use Rattle.plans.specs.Schedules.{height, full_blocks, blocks, rounds, due_after};
ghost use Rattle.sequences.specs.Tables.{ruled};
ghost use Rattle.plans.specs.Tables.{is_rounds};
ghost use Rattle.plans.specs.Numbers.{tolerance_wrong};

use crate::fault::PlanFault;
use crate::plan::Plan;
use places::shape::Shape;
use places::units_wrong;

impl Plan {
    /// A plan that a rack can be opened with; refused by 1 (n), 2 (gear), 3 (t) or 4 (source), the smallest that holds.
    pub fn new(n: u32, t: u32, gear: u32, source: u32) -> Result<Plan, PlanFault>
        ensures { result_map_both plan_parts (λ e. e) result ≡ plan_answer n t gear source }
    {
        if units_wrong(n) {
            return Err(PlanFault::Units);
        }
        if gear == 1 || gear > 3 {
            return Err(PlanFault::Gear);
        }
        if tolerance_wrong(n, t, gear) {
            return Err(PlanFault::Tolerance);
        }
        if n <= source {
            return Err(PlanFault::Source);
        }
        Ok(Plan { n, t, gear, source })
    }

    /// How many levels each unit's tree has.
    pub fn levels(self) -> u32
        ensures { result ≡ height self.t self.gear }
    {
        if self.gear == 0 {
            self.t + 1
        } else {
            self.gear + 1
        }
    }

    /// The shape of the run's trees.
    pub fn shape(self) -> Shape
        ensures { shape_parts result ≡ (self.n, self.source, height self.t self.gear) }
    {
        Shape {
            n: self.n,
            source: self.source,
            levels: self.levels(),
        }
    }

    /// How many rounds a run has.
    pub fn rounds(self) -> u32
        ensures { result ≡ rounds self.t self.gear }
    {
        if self.gear == 0 {
            self.t + 1
        } else {
            tabled_rounds(&ROUNDS, self.t, self.gear)
        }
    }

    // How many blocks of full length a run has; gear 0 has none of them.
    fn full_blocks(self) -> u32
        requires { 2 ≤ self.gear }
        ensures value { result ≡ full_blocks self.t self.gear }
        ensures bound { result ≤ 4 }
    {
        (self.t - 1) / (self.gear - 1)
    }

    /// The rounds of a block, the blocks counted from 0; nothing past the last one.
    pub fn block(self, index: u32) -> Option<u32>
        ensures { result ≡ slice_get (blocks self.t self.gear) index }
    {
        if self.gear == 0 {
            return (index == 0).then_some(self.t);
        }
        let full = self.full_blocks();
        if index < full {
            Some(self.gear)
        } else if index == full && (self.t - 1) % (self.gear - 1) != 0 {
            Some(self.t - full * (self.gear - 1))
        } else {
            None
        }
    }

    /// Whether a conversion is due once this round is closed.
    pub fn conversion_due(self, round: u32) -> bool
        ensures { result ≡ due_after self.t self.gear round }
    {
        if self.gear == 0 {
            return round == self.t + 1;
        }
        if round == self.rounds() {
            return true;
        }
        ends_full_block(self.gear, self.full_blocks() * self.gear, round)
    }
}

// Whether t is outside what n and the gear allow.
fn tolerance_wrong(n: u32, t: u32, gear: u32) -> bool
    ensures { result ≡ tolerance_wrong n t gear }
{
    if gear == 0 {
        !(1..=3).contains(&t) || n < 3 * t + 1
    } else {
        !(gear..=5).contains(&t) || n < 4 * t + 1
    }
}

// Whether a round ends one of the blocks of b rounds that follow on round 1 and have `full` rounds together.
fn ends_full_block(b: u32, full: u32, round: u32) -> bool
    requires some { 1 ≤ b }
    requires few { full ≤ 12 }
    ensures { result ≡ (nat_lt 1 round && (nat_le round (1 + full) && (round - 1) % b == 0)) }
{
    1 < round && round <= 1 + full && (round - 1) % b == 0
}

// The rounds of a run in a gear other than 0: a row for gears 2 and 3, a column for t from 2 to 5.
const ROUNDS: [[u32; 4]; 2] = [[3, 5, 7, 9], [0, 4, 6, 7]];

// An entry of a table that follows the rule of the rounds.
// The widths are read in the same way. One function for both would need a trait that holds the rule, with a type and an `impl` for each table.
fn tabled_rounds(rows: &[[u32; 4]], t: u32, gear: u32) -> u32
    requires rule { ruled is_rounds 2 4 rows.now ≡ true }
    requires least { 2 ≤ gear }
    requires most { gear ≤ 3 }
    requires low { gear ≤ t }
    requires high { t ≤ 5 }
    ensures { result ≡ rounds t gear }
{
    rows[(gear - 2) as usize][(t - 2) as usize]
}
