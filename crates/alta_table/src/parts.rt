// What the tables of a segment have, as they are kept in memory.
use crate::terms::HeldTerms;
use alta_content::LevelRows;
use std::rc::Rc;

/// The rows of the tables. The rows of documents are shared with whoever else keeps them.
#[derive(Drop)]
pub struct Parts {
    pub place: u64,
    /// The place at which the segment ends.
    pub end: u64,
    pub documents: Rc<LevelRows>,
    pub terms: HeldTerms,
}
