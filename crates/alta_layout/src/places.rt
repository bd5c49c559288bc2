// The places of the head, its gates, and its sizes in bytes.

/// The gate of a slot that says a root, and of a record that is there. Each other value is a closed gate.
pub const GATE_OPEN: u8 = 0xA5;

/// The value by which a closed gate is written.
pub const GATE_CLOSED: u8 = 0;

/// The bytes of a root slot. Slot B stands behind slot A.
pub const SLOT_BYTES: u64 = 4_096;

/// The bytes of both root slots.
pub const SLOTS_BYTES: u64 = 8_192;

/// Where half A of the journal starts on the disk.
pub const START_A: u64 = 8_192;

/// Where half B of the journal starts on the disk.
pub const START_B: u64 = 1_056_768;

/// The bytes of a half of the journal.
pub const HALF_BYTES: u64 = 1_048_576;

/// The bytes of a disk's head: of both root slots and of both halves of the journal. Extents lie behind it.
pub const HEAD_BYTES: u64 = 2_105_344;
