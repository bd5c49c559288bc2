// What a level has.
use crate::rows::DocRows;
use crate::term_lists::TermLists;

/// The documents of a level, and the locations of each of their terms.
#[derive(Drop)]
pub struct Content {
    /// The documents, in rising order of number and of location.
    pub documents: DocRows,
    /// The terms in collating order, each with its locations.
    pub lists: TermLists,
}
