//! The open cursors of a run: each has the answers of a query that are still to come.
#![tactic(auto)]

mod cursor;
mod cursors;
mod laws;

pub use cursor::Cursor;
pub use cursors::Cursors;
pub use laws::free_numbers_are_least;
