ghost use Rattle.std.specs.Prelude.{◌≡◌};
ghost use Rattle.kinds.specs.Triggers.{slope_of, trigger_from, trigger_model};
ghost use Rattle.kinds.specs.TriggerCodes.{trigger_lawful};

use crate::Kind;
use crate::trigger::{Slope, Trigger};

impl Slope {
    // A function of this file and no `From<u32>`, which all could use: but for the bit of a code, a number is no slope.
    fn of(bit: u32) -> Slope
        ensures { result ≡ slope_of bit }
    {
        if bit == 0 {
            Slope::Rising
        } else {
            Slope::Falling
        }
    }
}

impl Trigger {
    /// The trigger with these parts, or nothing if the channel or the level is out of range.
    // No `TryFrom`: three parts would first have to be put into a tuple.
    pub fn new(channel: u32, slope: Slope, level: i32) -> Option<Trigger>
        ensures { result ≡ trigger_from channel slope level }
    {
        // The level is tested by hand: with `contains` of numbers that have a sign the proof did not close.
        if !(1..=4).contains(&channel) || level < -2048 || 2047 < level {
            return None;
        }
        Some(Trigger {
            channel: channel as u8,
            slope,
            level: level as i16,
        })
    }
}

impl Kind for Trigger {
    ghost model = { trigger_model };

    ghost lawful = { trigger_lawful };

    fn code(&self) -> u32 {
        let above = (i32::from(self.level) + 2048) as u32;
        (u32::from(self.channel - 1) * 2 + self.slope as u32) * 4096 + above
    }

    fn read(code: u32) -> Option<Trigger> {
        let slope = Slope::of(code / 4096 % 2);
        let level = (code % 4096) as i32 - 2048;
        Trigger::new(code / 8192 + 1, slope, level)
    }

    fn ground() -> Trigger {
        Trigger {
            channel: 1,
            slope: Slope::Rising,
            level: 0,
        }
    }
}
