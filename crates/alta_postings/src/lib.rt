//! Rising lists of locations as bytes. A stream has the first location, and then each difference from the one before, in blocks of
//! 64. Its summary has a row for each block, and above the rows the last location of each 64 of them.
#![tactic(auto)]

mod block;
mod building;
mod coding;
mod fault;
mod field;
mod lanes;
mod places;
mod runs;
mod search;
mod step;
mod stream;
mod summary;

pub use block::{BlockSpan, fill_block, scan_block};
pub use building::build;
pub use coding::{Coded, encode, mark};
pub use fault::{StreamCause, StreamFault};
pub use places::Places;
pub use step::read_location;
pub use stream::Stream;
pub use summary::{Row, Summary, SummaryFault};
