//! Lines: what arrives of the codes that units give to one another, and which units are loose.
#![tactic(auto)]

mod clean;
mod fault;
mod line;
mod mute;
mod script;
mod way;

pub use clean::Clean;
pub use fault::ScriptFault;
pub use line::Line;
pub use mute::Mute;
pub use script::{Record, Script};
pub use way::Way;
