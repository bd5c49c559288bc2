//! What a level has, its content: the rows of its documents, and for each term the rising list of the locations that hold it; and
//! what several contents make up, without the documents that are deleted. Rows are shared by level, and found by where a document
//! ends.
//!
//! The level in memory, the join and the tables share these words, and the crate stands on alta_codec alone: it says the cells of a
//! row (`cells_at`), and knows no documents with cells.
#![tactic(auto)]

mod all;
mod content;
mod document;
mod laws;
mod level;
mod name;
mod packed_locations;
mod packing;
mod passed;
mod row_runs;
mod rows;
mod runs;
mod spans;
mod term_lists;
mod walk;

pub use all::AllRows;
pub use content::Content;
pub use document::DocRow;
pub use laws::joins_keep_contents;
pub use level::{LevelRows, ends_of};
pub use name::DocName;
pub use packed_locations::{PackedList, PackedLocations};
pub use passed::give_back;
pub use row_runs::RowRuns;
pub use rows::DocRows;
pub use runs::{Runs, runs_of};
pub use spans::{Span, keep_locations, keep_rows, put_locations, spans_of};
pub use term_lists::TermLists;
pub use walk::RowWalk;
