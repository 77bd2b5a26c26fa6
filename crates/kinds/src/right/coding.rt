ghost use Rattle.std.specs.Prelude.{◌≡◌};
ghost use Rattle.kinds.specs.Rights.{minutes_of, right_model};
ghost use Rattle.kinds.specs.RightCodes.{right_lawful};

use crate::Kind;
use crate::right::{Minutes, Right};

impl Minutes {
    /// `count` minutes, or nothing if `count` is not from 1 to 60.
    // No `TryFrom`: an error type would say no more than `None`, as with the library's `NonZero::new`.
    pub fn new(count: u32) -> Option<Minutes>
        ensures { result ≡ minutes_of count }
    {
        if !(1..=60).contains(&count) {
            return None;
        }
        Some(Minutes { count: count as u8 })
    }
}

impl Kind for Right {
    ghost model = { right_model };

    ghost lawful = { right_lawful };

    // A case that holds a value has no cast to a number.
    fn code(&self) -> u32 {
        match self {
            Right::Withdrawn => 0,
            Right::Watch => 1,
            Right::Operate(m) => u32::from(m.count) + 1,
        }
    }

    fn read(code: u32) -> Option<Right> {
        match code {
            0 => Some(Right::Withdrawn),
            1 => Some(Right::Watch),
            _ => Minutes::new(code - 1).map(Right::Operate),
        }
    }

    fn ground() -> Right {
        Right::Withdrawn
    }
}
