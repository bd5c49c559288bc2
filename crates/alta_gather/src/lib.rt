//! Which of several lists have each of some locations, by one walk over each list.
#![tactic(auto)]

mod gathering;
mod held;
mod packed;
mod places;

pub use gathering::mark;
pub use held::Held;
pub use packed::{ListIndex, PackedHeld};
pub use places::Places;
