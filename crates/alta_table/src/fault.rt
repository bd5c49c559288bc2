// Why a segment could not be read.

/// Why a segment, or its head or its tables, could not be read.
#[derive(Clone, Copy, Debug, PartialEq, Eq, Drop)]
pub enum LevelFault {
    /// The bytes break a rule. The place is that of the first field that breaks one, on the disk.
    Damaged(u64),
    /// There is too little memory.
    Memory,
}
