// The one space of locations in which the words of all documents stand.

/// The place above every location, where a reader stands that has passed its last one: 2 to the 62nd.
pub const TOP: u64 = 1 << 62;

/// A location: the place of one cell of a document, from 1 to below [`TOP`].
pub type Loc = u64;

/// The number of a document, from 1 on. A number is never used again.
pub type DocNumber = u64;
