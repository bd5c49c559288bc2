//! An index on a disk. Each image that a stop may leave stands for the state before a call or after it.
#![tactic(auto)]

mod entries;
mod fault;
mod formatting;
mod guess;
mod laws;
mod opening;
mod store;
mod work;

pub use alta_catalog::{NameRow, Names};
pub use entries::Put;
pub use fault::{StoreFault, load_fault};
pub use formatting::make_index;
pub use laws::a_search_sees_the_state;
pub use opening::has_index;
pub use store::{Sources, Store};
