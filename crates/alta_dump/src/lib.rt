//! The folded words of the live documents again, as the lines that add them.
#![tactic(auto)]

mod alike;
mod dumping;
mod gathering;
pub mod laws;
mod live;
mod order;
mod rebuilding;
mod texts;

pub use dumping::dump;
pub use order::dump_order;
