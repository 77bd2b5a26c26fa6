//! The names that words can be, and what can be wrong with a line.
ghost use Rattle.std.specs.Prelude.{◌≡◌, Some};
ghost use Rattle.fields.specs.Flaws.{misread_number, misread_word};
ghost use Rattle.fields.specs.Texts.{kind_text, misread_text};

use std::error::Error;
use std::fmt;

/// A kind of value.
#[derive(Clone, Copy, Debug, PartialEq, Eq)]
pub enum KindName {
    Right,
    Trigger,
}

impl fmt::Display for KindName {
    ghost output = { λ kind. Some (kind_text kind) };

    fn fmt<W: fmt::Write>(&self, f: &mut fmt::Formatter<W>) -> fmt::Result {
        f.write_str(match self {
            KindName::Right => "right",
            KindName::Trigger => "trigger",
        })
    }
}

/// A vote.
#[derive(Clone, Copy, Debug, PartialEq, Eq)]
pub enum VoteName {
    Majority,
    Threshold,
}

/// Why a line is not understood. A number is that of the word in the line; the first word has number 1.
#[derive(Clone, Copy, Debug, PartialEq, Eq)]
pub enum Misread {
    /// The first word names no question.
    UnknownQuestion,
    /// Words are missing.
    TooFew,
    /// There are more words than the question has.
    TooMany,
    /// The word should be a kind, a slope, a vote or a right.
    UnknownWord(usize),
    /// The word should be a number, and has something other than digits.
    NotNumber(usize),
    /// The word is a number with a minus, where none may stand.
    Negative(usize),
    /// The word is a number out of range.
    TooLarge(usize),
}

impl Misread {
    /// The number of the case, from 1 for an unknown question to 7 for a number out of range.
    // A `match`, since an enum whose cases hold values has no cast to a number.
    pub fn number(self) -> u32
        ensures { result ≡ misread_number self }
    {
        match self {
            Misread::UnknownQuestion => 1,
            Misread::TooFew => 2,
            Misread::TooMany => 3,
            Misread::UnknownWord(_) => 4,
            Misread::NotNumber(_) => 5,
            Misread::Negative(_) => 6,
            Misread::TooLarge(_) => 7,
        }
    }

    /// The number of the word that is not understood, unless it is the line as a whole.
    pub fn word(self) -> Option<usize>
        ensures { result ≡ misread_word self }
    {
        match self {
            Misread::UnknownQuestion | Misread::TooFew | Misread::TooMany => None,
            Misread::UnknownWord(i)
            | Misread::NotNumber(i)
            | Misread::Negative(i)
            | Misread::TooLarge(i) => Some(i),
        }
    }
}

// By hand: a derived `Display` would promise no text.
impl fmt::Display for Misread {
    ghost output = { λ misread. Some (misread_text misread) };

    fn fmt<W: fmt::Write>(&self, f: &mut fmt::Formatter<W>) -> fmt::Result {
        match self {
            Misread::UnknownQuestion => write!(f, "no such question"),
            Misread::TooFew => write!(f, "words are missing"),
            Misread::TooMany => write!(f, "too many words"),
            Misread::UnknownWord(i) => {
                write!(f, "word {i} is not one of the names that may stand there")
            }
            Misread::NotNumber(i) => write!(f, "word {i} is not a number"),
            Misread::Negative(i) => write!(f, "word {i} is negative"),
            Misread::TooLarge(i) => write!(f, "word {i} is out of range"),
        }
    }
}

impl Error for Misread {}
