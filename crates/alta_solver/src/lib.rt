//! Bounds between the places of readers, and the least solution at or above where the readers stand.
#![tactic(auto)]

mod bound;
mod least;
mod solver;
mod system;

pub use bound::Bound;
pub use solver::Solver;
pub use system::System;
