//! Formats as data: rows of fields, each with its rule. What bytes spell, what reading finds, and where the first
//! field breaks its rule are one definition each over all formats.
//!
//! A format is the list of its fields in the order in which they are tested, so the first field that breaks its rule is no reader's
//! loop told again. A fault is how many bytes were left at the field, so that no reader of a field knows where it stands.
#![tactic(auto)]

mod field;

pub use field::{ReadFault, byte_at, packed_at, text_at, wide_at};
