use std::fmt;
use std::marker::Model;

/// A sequence of distinct units that begins with the source. A contract sees the list of its units.
// A buffer with a length beside it: a sequence uses no heap, and it is copied, which an `ArrayVec` of the kit is not.
#[derive(Clone, Copy)]
pub struct Sequence {
    pub(crate) units: [u32; 4],
    pub(crate) level: u32,
}

impl Model for Sequence {
    ghost use Rattle.std.specs.Prelude.{◌≡◌, ℕ, List, length, take};
    ghost use Rattle.places.specs.Entries.{four_entries};

    ghost Value = { List ℕ };

    ghost view = { λ s. take s.level s.units };

    // A copy needs the fields from the units alone, so the entries after them are 0.
    ghost invariant = { λ s. (length (take s.level s.units) ≡ s.level) × (four_entries (take s.level s.units) ≡ s.units) };

    ghost inverse = { λ units. record { units = four_entries units; level = length units } };

    ghost inverse_ok = { λ s is i. record { units = is.1 i; level = is.0 i } };
}

impl Sequence {
    ghost use Rattle.std.specs.Prelude.{◌≡◌, ◌≤◌, length};

    /// The units of the sequence, the source first.
    pub fn units(&self) -> &[u32]
        ensures value { result.now ≡ self.now }
        ensures few { length self.now ≤ 4 }
    {
        &self.units[0..self.level as usize]
    }
}

impl fmt::Display for Sequence {
    ghost use Rattle.std.specs.Prelude.{Some};
    ghost use Rattle.places.specs.Texts.{units_text};

    ghost output = { λ sequence. Some (units_text sequence) };

    fn fmt<W: fmt::Write>(&self, f: &mut fmt::Formatter<W>) -> fmt::Result {
        write!(f, "units")?;
        for unit in self.units() {
            write!(f, " {unit}")?;
        }
        Ok(())
    }
}
