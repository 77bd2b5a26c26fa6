//! The words of a sheet's line read as numbers and names.
#![tactic(auto)]

mod forms;
mod names;
mod numbers;
mod picking;

pub use forms::{KindName, Misread, VoteName};
pub use picking::{Field, NumberedWord, at_least, exactly, read, word};
