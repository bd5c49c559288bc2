//! The lists of a plan's tests, loaded from levels on the disk.
#![tactic(auto)]

mod kept;
mod laws;
mod list;
mod loading;
mod meeting;
mod near;
mod snapshot;
mod term;
mod terms;

pub use kept::{Ends, KeptLists};
pub use laws::{
    levels_and_newest_documents_answer, levels_and_newest_documents_are_ranked,
    levels_and_newest_documents_are_shown, loaded_lists_are_those_of_the_content,
};
pub use list::load_list;
pub use loading::load_tests;
pub use meeting::terms_met;
pub use snapshot::load_ordered;
pub use terms::load_terms;
