//! What an index knows of its documents in memory: the live ones of its levels by number, name and count of cells, the newest ones
//! with all their words, and the ends of those that were deleted, a rising list, which is searched, edited and coded.
#![tactic(auto)]

mod catalog;
mod deletions;
mod fault;
mod finding;
mod laws;
mod lists;
mod names;
mod replacing;
mod replaying;
mod sharing;
mod starting;

pub use catalog::Catalog;
pub use deletions::Deletions;
pub use fault::CatalogFault;
pub use laws::{
    a_catalog_knows_one, a_root_may_start, a_state_may_be, an_entry_goes_on, some_rows_rise,
    something_may_be, what_is_gone, what_may_be_is_known,
};
pub use lists::{NameRow, Names};
pub use replacing::PreparedLevels;
pub use replaying::{apply_entries, enter_allowed};
