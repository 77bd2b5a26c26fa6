//! Sequences of units in the order of their places, and how many a level and a tree have.
#![tactic(auto)]

pub mod level;
pub mod ranks;
pub mod units;
pub mod walk;
pub mod widths;
