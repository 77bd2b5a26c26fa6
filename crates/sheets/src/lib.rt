//! Reading one line of a bench sheet into the question that it asks.
#![tactic(auto)]

ghost use Rattle.std.specs.Option.{option_map};
ghost use Rattle.sheets.specs.Asked.{seen};
ghost use Rattle.sheets.specs.Lines.{line_of};
ghost use Rattle.sheets.specs.Reading.{Gives};

mod asking;
mod forms;

use asking::question;
pub use forms::{Question, RightName, Unread};
use std::alloc::Global;
use words::words;

/// Reads a line, without the byte 10 that ends it: the question that it asks, or nothing if it has no words.
pub fn read_line(heap: Global, line: &[u8]) -> Result<Option<Question>, Unread>
    ensures { Gives (option_map seen) result (line_of line.now) }
{
    let words = words(heap, line)?;
    if words.is_empty() {
        return Ok(None);
    }
    let asked = question(heap, words.as_slice())?;
    Ok(Some(asked))
}
