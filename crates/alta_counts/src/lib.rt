//! How many answers a query has, over a snapshot of the lists of its plan's tests: by walks over the lists of the words alone where its
//! kind has one.
//!
//! `counts` has the one call and chooses the way. A conjunction goes by `by_level`, an Or of a few words and a word in titles by
//! `asked_count`, a stem by `stem_walk`, and any other query by the reader of its plan (`tallies`). Where words are walked over, `walk` has
//! the one walk for what is asked of them and for the kinds of their readers.
#![tactic(auto)]

mod asked_count;
mod by_level;
mod counts;
mod laws;
mod stem_walk;
mod tallies;
mod walk;

pub use counts::count;
pub use laws::{a_title_finds_its_word, an_or_finds_its_words};
