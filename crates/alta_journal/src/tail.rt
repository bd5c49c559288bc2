// Where the records of a half end.
ghost use Rattle.std.specs.Prelude.{◌+◌, ◌<◌, ◌≤◌, ◌≡◌};
ghost use Rattle.alta_layout.specs.declared.places.TheConstants.{HALF_BYTES};
ghost use Rattle.alta_layout.specs.Places.{half_start};
ghost use Rattle.alta_journal.specs.Places.{left_behind};

use alta_layout::{HALF_BYTES, Slot};

/// The end of the records in a slot's half of the journal: the place on the disk of its first closed gate, inside the half.
#[derive(Clone, Copy, Debug)]
pub struct Tail {
    pub slot: Slot,
    pub place: u64,
    pub ghost starts: { half_start slot ≤ place },
    pub ghost ends: { place < half_start slot + HALF_BYTES },
}

impl Tail {
    /// How many bytes the half has left behind the gate of its next record.
    pub fn room(self) -> u64
        ensures { result ≡ left_behind (half_start self.slot) self.place }
    {
        self.slot.half_start() + HALF_BYTES - (self.place + 1)
    }
}
