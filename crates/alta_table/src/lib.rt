//! The tables of a segment: its head, its documents and its terms, read, searched and written.
//!
//! A segment begins with its head, four numbers of eight bytes. Behind it stand the documents, then the terms, then for
//! each term its stream and its summary. Numbers of the two tables are in unsigned LEB128 (DWARF 5, section 7.6), and a
//! term is spelled without the bytes that it shares with the one before.
#![tactic(auto)]

mod cursor;
mod documents;
mod entry;
mod fault;
mod heading;
mod laws;
mod marks;
mod parts;
mod search;
mod sizes;
mod table;
mod term;
mod terms;
mod walk;
mod writers;

pub use alta_content::DocRow;
pub use cursor::TermCursor;
pub use fault::LevelFault;
pub use heading::head;
pub use laws::{tables_in_front, tables_read_back};
pub use sizes::Head;
pub use table::OpenLevel;
pub use term::TermRow;
pub use writers::{put_documents, put_head, put_term};
