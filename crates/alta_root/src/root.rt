// What a slot says.

use alta_codec::{DocNumber, Extent, Loc};
use alta_layout::Slot;
use arrayvec::ArrayVec;

/// A root: where its levels and its deletion list stand on the disk, and what the next document is.
#[derive(Drop)]
pub struct Root {
    /// The version of its rules and of its journal's, 1 or 2. Roots are written with version 2.
    pub version: u8,
    /// One past that of the root before it, modulo 256.
    pub sequence: u8,
    /// The number of the next document, from 1.
    pub next_number: DocNumber,
    /// The location of its first cell, from 1.
    pub next_location: Loc,
    /// The levels, the oldest first. Contracts see them as a list.
    pub levels: ArrayVec<Extent, 16>,
    /// The deletion list, with place and bytes 0 where nothing is deleted.
    pub deletions: Extent,
}

/// The slot that counts, and its root.
#[derive(Drop)]
pub struct Roots {
    pub slot: Slot,
    pub root: Root,
}
