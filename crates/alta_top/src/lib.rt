//! The best answers of a query by score, over a snapshot of the lists of its plan's tests and of the test of title ends.
#![tactic(auto)]

mod best;
mod ranking;
mod scored_walk;
mod scoring;

pub use best::Top;
pub use ranking::top;
