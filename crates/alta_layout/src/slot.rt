// The two slots of the head.
ghost use Rattle.std.specs.Prelude.{◌≡◌};
ghost use Rattle.alta_layout.specs.Places.{half_start, other, slot_start};

use crate::places::{SLOT_BYTES, START_A, START_B};

/// A slot of the head: a place for a root, and the half of the journal that this root uses.
#[derive(Clone, Copy, Debug, PartialEq, Eq)]
pub enum Slot {
    A,
    B,
}

impl Slot {
    /// Where the slot's root starts on the disk.
    pub fn start(self) -> u64
        ensures { result ≡ slot_start self }
    {
        match self {
            Slot::A => 0,
            Slot::B => SLOT_BYTES,
        }
    }

    /// Where the slot's half of the journal starts on the disk.
    pub fn half_start(self) -> u64
        ensures { result ≡ half_start self }
    {
        match self {
            Slot::A => START_A,
            Slot::B => START_B,
        }
    }

    /// The slot that a switch writes where this one counts.
    pub fn other(self) -> Slot
        ensures { result ≡ other self }
    {
        match self {
            Slot::A => Slot::B,
            Slot::B => Slot::A,
        }
    }
}
