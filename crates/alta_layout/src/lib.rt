//! Where the head of a disk lies: two slots, each with a place for a root and a half of the journal.
#![tactic(auto)]

mod places;
mod slot;

pub use places::{
    GATE_CLOSED, GATE_OPEN, HALF_BYTES, HEAD_BYTES, SLOT_BYTES, SLOTS_BYTES, START_A, START_B,
};
pub use slot::Slot;
