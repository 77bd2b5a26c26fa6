//! Kinds of value: each value of a kind has a code, and a code is read back as its value.
#![tactic(auto)]

ghost use Rattle.std.specs.Prelude.{◌≡◌};
ghost use Rattle.kinds.specs.Models.{KindModel, Lawful, same_value};

mod right;
mod trigger;

pub use right::{Minutes, Right};
pub use trigger::{Slope, Trigger};

/// A kind of value that the units of a rack can agree on.
// `code` and `read` are no `From` and `TryFrom`, since generic code needs one law for the two. `same` says for every kind
// when two values are equal: by their codes. So no implementer owes an `Eq` that agrees with it.
pub trait Kind: Copy {
    ghost model: { KindModel Self };

    /// The code of this value, below 2^31.
    fn code(&self) -> u32
        ensures { result ≡ model.code_of self.now };

    /// The value with this code, or nothing if the kind has none.
    fn read(code: u32) -> Option<Self>
        ensures { result ≡ model.value_of code };

    /// The ground value of the kind.
    fn ground() -> Self
        ensures { result ≡ model.base };

    /// Whether the two values are the same, that is, whether their codes are equal.
    fn same(&self, other: &Self) -> bool
        ensures { result ≡ same_value model self.now other.now }
    {
        self.code() == other.code()
    }

    ghost lawful: { Lawful model };
}
