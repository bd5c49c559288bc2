//! Command lines, and the documents that a query matches: what each line asks for, when it is refused, and the plain
//! match of a query with a document.
#![tactic(auto)]

mod atom;
mod laws;
mod line;
mod matching;
mod near;
mod phrase;

pub use laws::{a_line_is_read_one_way, a_match_is_decided};
pub use line::{Line, read_line};
pub use matching::matches;
