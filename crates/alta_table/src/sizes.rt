// What the head of a segment says.

/// The head of a segment: what its tables have.
#[derive(Clone, Copy, Debug, PartialEq, Eq, Drop)]
pub struct Head {
    /// How many documents there are.
    pub documents: u64,
    /// How many terms there are.
    pub terms: u64,
    /// How many bytes the document part has.
    pub document_bytes: u64,
    /// How many bytes the term part has.
    pub term_bytes: u64,
}
