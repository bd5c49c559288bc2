//! The newest documents as an inverted index in memory.
#![tactic(auto)]

mod copying;
mod laws;
mod level;
mod lists;
mod terms;

pub use laws::drained_documents_are_kept;
pub use level::MemLevel;
