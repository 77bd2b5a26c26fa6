//! Words read as numbers.
ghost use Rattle.std.specs.Prelude.{◌≡◌, min, drop, if◌then◌else◌, Some, None};
ghost use Rattle.fields.specs.Numbers.{digits, value, negative, number, level, entry};

use crate::forms::Misread;
use crate::picking::{Field, NumberedWord};

/// The number that a word of digits writes, or 4294967296 if it is larger.
// All larger numbers are out of range alike, and a word may have more digits than any type. No `parse`, which takes a `+` too.
fn amount(word: &[u8]) -> Option<u64>
    ensures { result ≡ (if digits word.now then Some (min (value word.now) 4294967296) else None) }
{
    if word.is_empty() {
        return None;
    }
    let mut total: u64 = 0;
    for byte in word {
        if !byte.is_ascii_digit() {
            return None;
        }
        total = (total * 10 + u64::from(*byte - b'0')).min(4294967296);
    }
    Some(total)
}

/// The same of the digits after a minus.
fn amount_below_zero(word: &[u8]) -> Option<u64>
    ensures { result ≡ (if negative word.now then Some (min (value (drop 1 word.now)) 4294967296) else None) }
{
    match word {
        [b'-', digits @ ..] => amount(digits),
        _ => None,
    }
}

impl Field for u32 {
    ghost reads = { number };

    #[tactic(auto, unfolding(crate::specs::Numbers::number))]
    fn of(word: NumberedWord<'_>) -> Result<u32, Misread> {
        if amount_below_zero(word.text).is_some() {
            return Err(Misread::Negative(word.number));
        }
        let n = amount(word.text).ok_or(Misread::NotNumber(word.number))?;
        u32::try_from(n).map_err(|_| Misread::TooLarge(word.number))
    }
}

impl Field for i32 {
    ghost reads = { level };

    fn of(word: NumberedWord<'_>) -> Result<i32, Misread> {
        let n = match amount_below_zero(word.text) {
            Some(n) => -(n as i64),
            None => amount(word.text).ok_or(Misread::NotNumber(word.number))? as i64,
        };
        i32::try_from(n).map_err(|_| Misread::TooLarge(word.number))
    }
}

impl Field for Option<u32> {
    ghost reads = { entry };

    fn of(word: NumberedWord<'_>) -> Result<Option<u32>, Misread> {
        match word.text {
            b"-" => Ok(None),
            _ => u32::of(word).map(Some),
        }
    }
}
