//! What a root names, read and tested in the order of opening: its deletion list, its levels, and the one against the other.
//! The journal is left to the layer above.
#![tactic(auto)]

mod ends;
mod levels;
mod list;
mod names;
mod opening;
mod order;
mod tables;

pub use opening::{OpenLevels, open_levels};
