//! Plans of runs: which numbers a rack can be opened with, the rounds of a run, its blocks, and when a conversion is due.
#![tactic(auto)]

pub mod fault;
pub mod plan;
mod printing;
mod schedules;
