// What follows of the images of a disk in memory. These functions do nothing; their clauses are the laws.
ghost use Rattle.std.specs.Prelude.{ℕ, List, ◌↔◌};
ghost use Rattle.alta_disk.specs.Images.{IsLeft};
ghost use Rattle.alta_disk.specs.Memory.{media_of, memory_state};

use crate::MemoryDisk;

/// The images that a stop may leave are exactly those that have, outside the ranges written since the last sync and
/// below the length of then, the bytes which that sync made firm, and whose length lies between the length of then
/// and the greatest end written since.
pub fn images_keep_the_firm_bytes(_disk: &MemoryDisk)
    ensures { (image : List ℕ)
        → ((memory_state _disk.now).images image
        ↔ IsLeft (media_of _disk.now).firm (media_of _disk.now).pending image) }
{}
