//! The words of a line, by their numbers.
ghost use Rattle.std.specs.Prelude.{◌≡◌, ◌≤◌, ℕ, Result, length, OnOk};
ghost use Rattle.fields.specs.declared.forms.Misread.{Misread};
ghost use Rattle.fields.specs.Steps.{Present, at, word as word_of, exactly as has_exactly, at_least};
ghost use Rattle.words.specs.Words.{Word, texts};

use crate::forms::Misread;

/// A word of a line, and its number there: the first word has number 1.
#[derive(Clone, Copy)]
pub struct NumberedWord<'a> {
    pub text: &'a [u8],
    pub number: usize,
}

/// What a word can be read as.
pub trait Field: Copy {
    // What a word with a number reads as, or what is wrong with it.
    ghost reads: { ℕ → Word → Result Self Misread };

    /// Reads the word.
    fn of(word: NumberedWord<'_>) -> Result<Self, Misread>
        ensures { result ≡ reads word.entry.number word.entry.text.now };
}

/// Word `i`, from 1.
pub fn word<'a>(words: &[&'a [u8]], i: usize) -> NumberedWord<'a>
    requires { Present words.now i }
    ensures text { result.text.now ≡ word_of (texts words.now) i }
    ensures number { result.number ≡ i }
{
    NumberedWord {
        text: words[i - 1],
        number: i,
    }
}

/// Word `i`, read as a `T`.
pub fn read<T: Field>(words: &[&[u8]], i: usize) -> Result<T, Misread>
    requires { Present words.now i }
    ensures { result ≡ at T.reads (texts words.now) i }
{
    T::of(word(words, i))
}

/// There are as many words.
pub fn exactly(words: &[&[u8]], count: usize) -> Result<(), Misread>
    ensures value { result ≡ has_exactly count (texts words.now) }
    ensures enough { OnOk result (length words.now ≡ count) }
{
    at_least(words, count)?;
    if words.len() > count {
        return Err(Misread::TooMany);
    }
    Ok(())
}

/// There are as many words, or more.
pub fn at_least(words: &[&[u8]], count: usize) -> Result<(), Misread>
    ensures value { result ≡ at_least count (texts words.now) }
    ensures enough { OnOk result (count ≤ length words.now) }
{
    if words.len() < count {
        return Err(Misread::TooFew);
    }
    Ok(())
}
