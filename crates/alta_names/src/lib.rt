//! The numbers of documents by their names, found by hashes: no name is kept but of those whose hash another one has.
#![tactic(auto)]

mod hash;
mod table;

pub use table::NameTable;
