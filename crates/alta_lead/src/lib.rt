//! A reader of the documents that have each of several words and none of some others, which one of the words leads.
#![tactic(auto)]

mod any_of;
mod chains;
mod followed;
mod reader;
mod rounds;
mod walk;

pub use any_of::tally_any_of;
pub use followed::tally_followed;
pub use reader::LeadReader;
pub use walk::tally;
