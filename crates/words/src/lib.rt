//! The words of a line of text: what stands between blanks, before a comment.
#![tactic(auto)]

ghost use Rattle.std.specs.Prelude.{◌≡◌, [], ◌∷◌, ◌++◌, is_ok, IfOk, if◌then◌else◌};
ghost use Rattle.words.specs.Words.{blank, filled, pieces, texts, uncommented, words};

use std::alloc::{AllocError, Global};

fn is_blank(byte: u8) -> bool
    ensures { result ≡ blank byte }
{
    matches!(byte, b' ' | b'\t' | b'\r')
}

// What stands before the first `#`.
fn before_comment(line: &[u8]) -> &[u8]
    ensures { result.now ≡ uncommented line.now }
{
    let end = line
        .iter()
        .position(|byte| *byte == b'#')
        .unwrap_or(line.len());
    &line[..end]
}

// Adds a piece to the words, unless it is empty.
fn keep<'a>(words: &mut Vec<&'a [u8]>, piece: &'a [u8]) -> Result<(), AllocError>
    ensures { texts words.new.items ≡ (if is_ok result then texts words.old.items ++ filled (piece.now ∷ []) else texts words.old.items) }
{
    if !piece.is_empty() {
        words.push(piece)?;
    }
    Ok(())
}

// The words of a text without a comment.
fn split<'a>(heap: Global, text: &'a [u8]) -> Result<Vec<&'a [u8]>, AllocError>
    ensures { IfOk result (λ v. texts v.items ≡ filled (pieces text.now)) }
{
    let mut words = Vec::new(heap);
    let mut start = 0;
    // Piece after piece: `split` with `filter` takes longer over blanks.
    for (i, byte) in text.iter().enumerate() {
        if is_blank(*byte) {
            keep(&mut words, &text[start..i])?;
            start = i + 1;
        }
    }
    keep(&mut words, &text[start..])?;
    Ok(words)
}

/// The words of a line, in their order. A `#` begins a comment, which has none.
pub fn words<'a>(heap: Global, line: &'a [u8]) -> Result<Vec<&'a [u8]>, AllocError>
    ensures { IfOk result (λ v. texts v.items ≡ words line.now) }
{
    split(heap, before_comment(line))
}
