//! How many lines were answered, refused and not understood.

mod counting;

/// The counts so far.
#[derive(Clone, Copy)]
pub struct Tally {
    pub answered: usize,
    pub refused: usize,
    pub unclear: usize,
}
