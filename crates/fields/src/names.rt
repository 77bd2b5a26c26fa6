//! Words read as names.
ghost use Rattle.std.specs.Prelude.{◌≡◌, Err};
ghost use Rattle.fields.specs.declared.forms.Misread.TheVariants.{UnknownWord};
ghost use Rattle.fields.specs.Names.{kind, slope, vote};

use crate::forms::{KindName, Misread, VoteName};
use crate::picking::{Field, NumberedWord};
use kinds::Slope;

// What is wrong with a word that is none of the names.
fn unknown<T: Copy>(word: NumberedWord<'_>) -> Result<T, Misread>
    ensures { result ≡ Err (UnknownWord word.entry.number) }
{
    Err(Misread::UnknownWord(word.number))
}

// One function for these three would take two texts and two values: it would be no shorter than a match.
impl Field for KindName {
    ghost reads = { kind };

    fn of(word: NumberedWord<'_>) -> Result<KindName, Misread> {
        match word.text {
            b"right" => Ok(KindName::Right),
            b"trigger" => Ok(KindName::Trigger),
            _ => unknown(word),
        }
    }
}

impl Field for Slope {
    ghost reads = { slope };

    fn of(word: NumberedWord<'_>) -> Result<Slope, Misread> {
        match word.text {
            b"rising" => Ok(Slope::Rising),
            b"falling" => Ok(Slope::Falling),
            _ => unknown(word),
        }
    }
}

impl Field for VoteName {
    ghost reads = { vote };

    fn of(word: NumberedWord<'_>) -> Result<VoteName, Misread> {
        match word.text {
            b"majority" => Ok(VoteName::Majority),
            b"threshold" => Ok(VoteName::Threshold),
            _ => unknown(word),
        }
    }
}
