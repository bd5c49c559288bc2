//! Contents of levels joined to one content, in slices: the rows of all, one content behind the other, and each term with its
//! locations in all, without the documents that are dead.
//!
//! A join says the cells of its rows, and makes no documents: a row has number and name already, and that the cells are the same is
//! all there is to show.
#![tactic(auto)]

mod fronts;
mod job;
mod parts;

pub use fronts::{Room, merge_first};
pub use job::Job;
pub use parts::may_join;
