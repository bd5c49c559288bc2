//! Queries, cursors and dumps over a store, and their replies.
#![tactic(auto)]

mod dumping;
mod paging;
mod replying;
mod searching;

pub use dumping::dump;
pub use paging::{close, fetch, open};
pub use replying::text;
pub use searching::{Ask, answered, explain};
