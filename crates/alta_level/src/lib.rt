//! The content of a level: its document rows, and for each term the rising list of the locations that hold it; and the
//! segment that a content is on the disk.
//!
//! A segment begins with its tables, the head, the documents and the terms. Behind them stand, in the order of the terms,
//! the stream and the summary of each term's list. A content has exactly one segment.
#![tactic(auto)]

mod blocks;
mod building;
mod checking;
mod comparing;
mod decoding;
mod ends;
mod laws;
mod ranges;
mod reading;
mod stored;
mod walking;
mod writing;

pub use alta_content::{Content, DocRow, DocRows, TermLists};
pub use alta_table::{Head, LevelFault, OpenLevel, head};
pub use building::build;
pub use checking::{check_list, read_list};
pub use laws::segments_read_back;
pub use ranges::is_end_term;
pub use reading::read_content;
pub use stored::StoredList;
