//! Readers of lists of locations: a leaf reads one list, a chain several lists one behind the other.
#![tactic(auto)]

mod chain;
mod checking;
mod compared;
mod leaf;
mod plain;
mod posting;
mod standing;
mod word;

pub use chain::ChainReader;
pub use checking::{Bounds, PostingFault, check, summary_fault};
pub use compared::Compared;
pub use leaf::Leaf;
pub use plain::PlainReader;
pub use posting::Posting;
pub use word::WordReader;
