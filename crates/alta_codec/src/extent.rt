// A range of a disk.

/// A range of a disk: where it begins and how many bytes it has.
#[derive(Clone, Copy, Debug, Default, PartialEq, Eq)]
pub struct Extent {
    /// The place of its first byte on the disk.
    pub place: u64,
    /// How many bytes it has.
    pub bytes: u64,
}
