// What is written anew before a root is switched.

use alta_codec::Extent;

/// Bytes and where they are to stand on the disk: the segment of a level, or a deletion list.
#[derive(Clone, Copy)]
pub(crate) struct Piece<'a> {
    /// The range of the disk that they fill.
    pub(crate) extent: Extent,
    pub(crate) bytes: &'a [u8],
}
