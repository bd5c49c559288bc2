// The sizes in bytes of a root slot, and the numbers in its rules.

// The bytes of a slot behind its gate.
pub(crate) const BODY_BYTES: usize = 4_095;

/// The bytes of the fields of 16 levels, behind the gate.
pub const FIELDS_BYTES: usize = 295;

// The bytes of a slot that are read: the gate and the fields.
pub(crate) const READ_BYTES: usize = 296;

// The place of the second slot's sequence.
pub(crate) const SECOND_SEQUENCE: u64 = 4_098;

/// The version with which roots are written, the last that is read.
pub const VERSION: u8 = 2;

/// The most levels of a root.
pub const LEVELS: usize = 16;

/// The fewest bytes of a level.
pub const LEVEL_BYTES: u64 = 32;

/// The greatest next number.
pub const LAST_NEXT: u64 = 4_294_967_296;

/// The most cells of a document.
pub const DOCUMENT_CELLS: u64 = 262_146;
