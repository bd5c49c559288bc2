// Which of the two slots counts.
ghost use Rattle.std.specs.Prelude.{◌≡◌, ◌≢◌, ◌⊎◌, ◌↔◌, ℕ, List, ◌+◌, ◌≤◌, ◌<◌, ◌*◌, true, length, take, drop, get_or, Result, Ok, Err, IsTrue, IfOk, OnOk};
ghost use Rattle.alta_layout.specs.declared.places.TheConstants.{HEAD_BYTES, SLOTS_BYTES};
ghost use Rattle.alta_layout.specs.Places.{slot_start};
ghost use Rattle.alta_codec.specs.Faults.{Rose};
ghost use Rattle.alta_disk.specs.Disk.{DiskState};
ghost use Rattle.alta_disk.specs.Calls.{Reads};
ghost use Rattle.alta_root.specs.Root.{IsSound, next_sequence};
ghost use Rattle.alta_root.specs.Slots.{Counts, Shows};
ghost use Rattle.alta_root.specs.Answers.{AreRead, Says, SaysIfOpen, slot_bytes, chosen_of};
ghost use Rattle.alta_root.specs.declared.fault.RootFault.TheVariants.{Disk as DiskFault};
ghost use Rattle.alta_root.specs.declared.places.TheConstants.{READ_BYTES};
ghost use Rattle.alta_root.specs.declared.root.Roots.{Roots};
ghost use Rattle.alta_root.specs.declared.fault.RootFault.{RootFault};

use crate::fields::root_at;
use crate::places::{READ_BYTES, SECOND_SEQUENCE};
use crate::{Root, RootFault, Roots};
use alta_disk::Disk;
use alta_layout::{GATE_OPEN, HEAD_BYTES, SLOTS_BYTES, Slot};

/// Reads both slots, and answers the one that counts, with its root, which keeps the rules on slots, also where the disk does
/// not tell what it holds; the disk may then be as long as a head. It takes no memory, and reads 592 bytes at most: what stands behind the fields of a slot is not
/// looked at.
///
/// # Errors
///
/// `NoRoot` exactly where the disk is shorter than 8,192 bytes or neither gate is open. Else `Damaged` exactly where the
/// disk is shorter than its head, at its length, or where a slot breaks a rule: at the first field that does, of slot A
/// before slot B, and of both last, at 4,098, where neither sequence is one past the other. `Disk` where a call of the
/// disk failed.
pub fn read_roots<D: Disk>(disk: &mut D) -> Result<Roots, RootFault>
    ensures answer { D.tells → (result ≡ Err DiskFault) ⊎ Shows (D.state disk.old).content result }
    ensures counts { D.tells → IfOk result (λ roots. Counts roots.slot roots.root (D.state disk.old).content) }
    ensures sound { D.tells → IfOk result (λ roots. IsSound (length (D.state disk.old).content) roots.root) }
    ensures kept { IfOk result (λ roots. (size : ℕ) × IsSound size roots.root) }
    ensures long { OnOk result (HEAD_BYTES ≤ (D.state disk.old).limit) }
    ensures exact { D.tells → (answer : Result Roots RootFault) → Shows (D.state disk.old).content answer
        → (result ≡ Err DiskFault) ⊎ (result ≡ answer) }
    ensures cause { result ≡ Err DiskFault → Rose (D.state disk.old).faults (D.state disk.new).faults }
    ensures reads { Reads D.tells (2 * READ_BYTES) (D.state disk.old) (D.state disk.new) }
{
    let size = disk.len()?;
    if size < SLOTS_BYTES {
        return Err(RootFault::NoRoot);
    }
    let mut first = [0; READ_BYTES];
    disk.read(Slot::A.start(), &mut first)?;
    let mut second = [0; READ_BYTES];
    disk.read(Slot::B.start(), &mut second)?;
    shown(&first, &second, size)
}

// What the first bytes of both slots say, on a disk of this size.
fn shown(first: &[u8], second: &[u8], size: u64) -> Result<Roots, RootFault>
    requires first { length first.now ≡ READ_BYTES }
    requires second { length second.now ≡ READ_BYTES }
    requires size { SLOTS_BYTES ≤ size }
    ensures shows { (image : List ℕ) → AreRead first.now second.now size image → Shows image result }
    ensures kept { IfOk result (λ roots. (size : ℕ) × IsSound size roots.root) }
    ensures long { OnOk result (HEAD_BYTES ≤ size) }
    ensures disk { result ≡ Err DiskFault → ⊥ }
{
    if none_open(first, second) {
        return Err(RootFault::NoRoot);
    }
    if size < HEAD_BYTES {
        return Err(RootFault::Damaged(size));
    }
    match read_slot(first, Slot::A, size) {
        Ok(a) => match read_slot(second, Slot::B, size) {
            Ok(b) => choose_root(a, b),
            Err(fault) => Err(fault),
        },
        Err(fault) => Err(fault),
    }
}

// What a slot says, None where it is closed.
fn read_slot(bytes: &[u8], slot: Slot, size: u64) -> Result<Option<Root>, RootFault>
    requires { length bytes.now ≡ READ_BYTES }
    ensures says { (image : List ℕ) → bytes.now ≡ slot_bytes slot image → size ≡ length image
        → SaysIfOpen slot image result }
    ensures disk { result ≡ Err DiskFault → ⊥ }
{
    if !is_open(bytes) {
        return Ok(None);
    }
    let (_gate, fields) = bytes.split_at(1);
    match root_at(fields, slot.start() + 1, size) {
        Ok(root) => Ok(Some(root)),
        Err(fault) => Err(fault),
    }
}

// Which of the roots that the slots say counts.
fn choose_root(a: Option<Root>, b: Option<Root>) -> Result<Roots, RootFault>
    ensures { result ≡ chosen_of a b }
{
    match (a, b) {
        (None, None) => Err(RootFault::NoRoot),
        (Some(root), None) => Ok(Roots {
            slot: Slot::A,
            root,
        }),
        (None, Some(root)) => Ok(Roots {
            slot: Slot::B,
            root,
        }),
        (Some(a), Some(b)) => choose_later(a, b),
    }
}

fn choose_later(a: Root, b: Root) -> Result<Roots, RootFault>
    ensures { result ≡ chosen_of (Some a) (Some b) }
{
    if a.sequence == next(b.sequence) {
        return Ok(Roots {
            slot: Slot::A,
            root: a,
        });
    }
    if b.sequence == next(a.sequence) {
        return Ok(Roots {
            slot: Slot::B,
            root: b,
        });
    }
    Err(RootFault::Damaged(SECOND_SEQUENCE))
}

fn next(sequence: u8) -> u8
    ensures { result ≡ next_sequence sequence }
{
    sequence.wrapping_add(1)
}

fn none_open(first: &[u8], second: &[u8]) -> bool
    requires first { 1 ≤ length first.now }
    requires second { 1 ≤ length second.now }
    ensures { IsTrue result ↔ ((get_or first.now 0 0 ≢ GATE_OPEN) × (get_or second.now 0 0 ≢ GATE_OPEN)) }
{
    !is_open(first) && !is_open(second)
}

// Whether the gate in front of these bytes is open.
fn is_open(bytes: &[u8]) -> bool
    requires { 1 ≤ length bytes.now }
    ensures { IsTrue result ↔ (get_or bytes.now 0 0 ≡ GATE_OPEN) }
{
    bytes[0] == GATE_OPEN
}
