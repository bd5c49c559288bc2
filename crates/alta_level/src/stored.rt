// A list as it stands on the disk.

/// The stream and the summary of a term's list, where they stand on the disk, and what the row of the term says.
#[derive(Clone, Copy, Drop)]
pub struct StoredList<'a> {
    /// The stream's bytes.
    pub stream: &'a [u8],
    /// The place on the disk of the stream's first byte.
    pub stream_place: u64,
    /// The summary's bytes.
    pub summary: &'a [u8],
    /// The place on the disk of the summary's first byte.
    pub summary_place: u64,
    /// The term.
    pub term: &'a [u8],
    /// How many locations the row of the term states.
    pub count: u64,
}
