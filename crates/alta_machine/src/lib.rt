//! The abstract machine: documents as lists of cells, the state that they make up, which documents a query matches, what each line
//! answers, and the machine after it. `specs/Lib.antt` has its definitions in the order of reading. They rest on alta_codec and
//! alta_text alone: nothing here knows a disk, a reader or a list of locations.
//!
//! The code has the types of which both the definitions and the program speak, and what is made as the definitions say: the cells
//! of a document, a word as a number, and the ranges that cover an interval of numbers.
#![tactic(auto)]

mod build;
mod cause;
mod cell;
mod covering;
mod cursors;
mod document;
pub mod kinds;
mod laws;
mod level;
mod line;
mod lists;
mod numeral;
mod range;
mod scored;
mod terms;
mod test;
mod usage;

pub use build::{MetaFault, cells};
pub use cause::Cause;
pub use cell::Cell;
pub use covering::cover;
pub use cursors::CURSORS;
pub use document::{Document, State};
pub use laws::{
    a_cover_is_made, a_cover_is_one, a_number_is_read, a_value_is_covered_once, terms_are_apart,
};
pub use line::{LINE_LIMIT, LineFault};
pub use lists::{Cells, Documents};
pub use numeral::number;
pub use range::{LEVELS, Range};
pub use scored::{Scored, ScoredList};
pub use terms::{RangeTerm, range_term, term};
pub use test::{Test, Tests};
pub use usage::{Use, Uses};
