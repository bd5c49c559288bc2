// The words that a conjunction asks for.
use alta_machine::Tests;

/// The words of a conjunction, one at least, and the words that it is against.
#[derive(Drop)]
pub struct Conjunction {
    /// The test of each word, in the order of the query.
    pub words: Tests,
    /// The test of each negated word, in the order of the query.
    pub negated: Tests,
}
