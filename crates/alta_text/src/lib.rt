//! The words of a text, with their spans and their foldings.
#![tactic(auto)]

mod folding;
mod word;

pub use folding::{folded, put_folded};
pub use word::{Word, words};
