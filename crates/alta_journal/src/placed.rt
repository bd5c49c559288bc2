// An entry with its place.

use crate::Entry;

/// An entry of a half, with the place on the disk of its record's gate.
#[derive(Drop)]
pub struct Placed {
    pub place: u64,
    pub entry: Entry,
}
