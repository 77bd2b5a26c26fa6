//! Examples of every layer.

mod on_kinds;
mod on_lines;
mod on_masks;
mod on_places;
mod on_plans;
mod on_votes;
