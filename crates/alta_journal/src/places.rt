// The numbers in the journal's records.

/// The most bytes that a payload has under a root of version 1.
pub const PAYLOAD_BYTES: u64 = 65_600;

/// The most bytes that a name, a title and a body have together. A payload has 18 more at most.
pub const TEXTS_BYTES: u64 = 262_137;

// The kinds of a payload.
pub(crate) const ADD: u8 = 1;

pub(crate) const DELETE: u8 = 2;

pub(crate) const REPLACE: u8 = 3;
