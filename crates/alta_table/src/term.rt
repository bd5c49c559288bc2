// A row of the term table.
use alta_codec::Bytes;

/// A term of a segment.
#[derive(Drop)]
pub struct TermRow {
    /// The term's bytes.
    pub term: Bytes,
    /// At how many locations it stands.
    pub count: u64,
    /// How many bytes its stream has.
    pub stream: u64,
    /// How many bytes its summary has.
    pub summary: u64,
}
