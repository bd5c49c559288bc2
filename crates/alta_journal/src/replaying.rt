// The entries of a half, up to the first closed gate.
ghost use Rattle.std.specs.Prelude.{◌≡◌, ◌≢◌, ℕ, ◌+◌, ◌-◌, ◌<◌, ◌≤◌, List, length, All, IfOk, IfErr, IfSome, MatchOption, MatchResult};
ghost use Rattle.alta_layout.specs.declared.places.TheConstants.{HEAD_BYTES};
ghost use Rattle.alta_layout.specs.Places.{half_start};
ghost use Rattle.alta_disk.specs.Calls.{Retrieves};
ghost use Rattle.alta_disk.specs.Disk.{DiskState};
ghost use Rattle.alta_disk.specs.Parts.{part};
ghost use Rattle.alta_disk.specs.declared.fault.LoadFault.TheVariants.{Disk as DiskFault};
ghost use Rattle.alta_journal.specs.Entry.{MayBeRecorded};
ghost use Rattle.alta_journal.specs.Journal.{EndsAt, HasBrokenHalf, HasBrokenRecord};
ghost use Rattle.alta_disk.specs.Answers.{IsNoDamage};
ghost use Rattle.alta_journal.specs.declared.entry.Entry.{Entry};
ghost use Rattle.alta_journal.specs.Placed.{placed, IsReplay, IsWhole};
ghost use Rattle.alta_journal.specs.Places.{half_at};
ghost use Rattle.alta_journal.specs.Reading.{of_four};

use crate::fields::entry_from;
use crate::{Placed, Tail};
use alta_disk::{Disk, LoadFault, read_behind, read_part};
use alta_layout::{GATE_OPEN, HALF_BYTES, Slot};
use std::alloc::{AllocError, Global};

// How many bytes of a half are read first. Mostly its first closed gate is among them.
const FIRST_BYTES: u64 = 65_536;

/// Reads the entries of a half, each with the place of its record's gate, and the half's tail, the first closed gate. Each entry
/// keeps the rules of a record under a root of this version, which is 1 or 2.
/// The half's first 65,536 bytes are read, and the others only where these don't end the reading. The disk has at least
/// [`HEAD_BYTES`](crate::HEAD_BYTES).
///
/// # Errors
///
/// `Damaged` exactly where a record before the first closed gate breaks a rule, with the place of the first that does.
/// `Disk` where the read failed, `Memory` where there was no memory for the half and what it says.
pub fn replay<D: Disk>(
    alloc: Global,
    disk: &mut D,
    slot: Slot,
    version: u8,
) -> Result<(Vec<Placed>, Tail), LoadFault>
    requires size { D.tells → HEAD_BYTES ≤ length (D.state disk.old).content }
    requires version { (1 ≤ version) × (version ≤ 2) }

    ensures read { D.tells → IfOk result (λ r. IsReplay version (half_start slot) r.0.items r.1.place
        (D.state disk.old).content) }
    ensures slot { IfOk result (λ r. r.1.slot ≡ slot) }
    ensures rules { IfOk result (λ r. All (λ p. MayBeRecorded version p.entry) r.0.items) }
    ensures damaged { D.tells → IfErr result (λ e. (place : ℕ) → e ≡ LoadFault.Damaged place
        → HasBrokenHalf version (half_start slot) place (D.state disk.old).content) }

    // What the half says decides the answer, but for a fault of the disk and want of memory.
    ensures sound { D.tells → (tail : ℕ) → (entries : List Entry)
        → EndsAt version (half_start slot) tail entries (D.state disk.old).content
        → MatchResult result (λ r. (r.0.items ≡ placed (half_start slot) entries) × (r.1.place ≡ tail)) IsNoDamage }
    ensures broken { D.tells → (place : ℕ) → HasBrokenHalf version (half_start slot) place (D.state disk.old).content
        → MatchResult result (λ _. ⊥) (λ e. (other : ℕ) → e ≡ LoadFault.Damaged other → other ≡ place) }

    ensures retrieves { Retrieves D.tells HALF_BYTES (D.state disk.old) (D.state disk.new) result }
{
    read_half(alloc, disk, slot, version)
}

// The entries of a half. Where its first closed gate is among its first bytes, they alone are read.
fn read_half<D: Disk>(
    alloc: Global,
    disk: &mut D,
    slot: Slot,
    version: u8,
) -> Result<(Vec<Placed>, Tail), LoadFault>
    requires { D.tells → HEAD_BYTES ≤ length (D.state disk.old).content }
    ensures read { D.tells → IfOk result (λ r. IsWhole version (half_start slot) r.0.items r.1.place
        (half_at (half_start slot) (D.state disk.old).content)) }
    ensures slot { IfOk result (λ r. r.1.slot ≡ slot) }
    ensures rules { IfOk result (λ r. All (λ p. MayBeRecorded version p.entry) r.0.items) }
    ensures damaged { D.tells → IfErr result (λ e. (place : ℕ) → e ≡ LoadFault.Damaged place
        → (half_start slot ≤ place) × HasBrokenRecord version (place - half_start slot)
        (half_at (half_start slot) (D.state disk.old).content)) }
    ensures retrieves { Retrieves D.tells HALF_BYTES (D.state disk.old) (D.state disk.new) result }
{
    let start = slot.half_start();
    let first = read_part(alloc, disk, start, FIRST_BYTES)?;
    let ended = read_first(alloc, slot, version, &first)?;
    if let Some(found) = ended {
        return Ok(found);
    }
    let bytes = read_behind(
        alloc,
        disk,
        &first,
        start + FIRST_BYTES,
        HALF_BYTES - FIRST_BYTES,
    )?;
    read_records(alloc, slot, version, &bytes)
}

// The entries in the first bytes of a half, if its first closed gate is among them.
fn read_first(
    alloc: Global,
    slot: Slot,
    version: u8,
    bytes: &[u8],
) -> Result<Option<(Vec<Placed>, Tail)>, AllocError>
    requires { (0 < length bytes.now) × (length bytes.now ≤ HALF_BYTES) }
    ensures read { IfOk result (λ o. IfSome o (λ r. IsWhole version (half_start slot) r.0.items r.1.place bytes.now)) }
    ensures slot { IfOk result (λ o. IfSome o (λ r. r.1.slot ≡ slot)) }
    ensures rules { IfOk result (λ o. IfSome o (λ r. All (λ p. MayBeRecorded version p.entry) r.0.items)) }
{
    match read_records(alloc, slot, version, bytes) {
        Ok(found) => Ok(Some(found)),
        Err(LoadFault::Memory) => Err(AllocError),
        Err(_) => Ok(None),
    }
}

// The entries in bytes of a half.
fn read_records(
    alloc: Global,
    slot: Slot,
    version: u8,
    bytes: &[u8],
) -> Result<(Vec<Placed>, Tail), LoadFault>
    requires { (0 < length bytes.now) × (length bytes.now ≤ HALF_BYTES) }
    ensures read { IfOk result (λ r. IsWhole version (half_start slot) r.0.items r.1.place bytes.now) }
    ensures slot { IfOk result (λ r. r.1.slot ≡ slot) }
    ensures rules { IfOk result (λ r. All (λ p. MayBeRecorded version p.entry) r.0.items) }
    ensures damaged { IfErr result (λ e. (place : ℕ) → e ≡ LoadFault.Damaged place
        → (half_start slot ≤ place) × HasBrokenRecord version (place - half_start slot) bytes.now) }
    ensures disk { IfErr result (λ e. e ≢ DiskFault) }
{
    let start = slot.half_start();
    let mut entries = Vec::new(alloc);
    let mut at = 0usize;
    while bytes[at] == GATE_OPEN {
        let Some(payload) = payload_of(&bytes[at..]) else {
            return Err(LoadFault::Damaged(start + at as u64 + 1));
        };
        let Some(entry) = entry_from(alloc, version, payload)? else {
            return Err(LoadFault::Damaged(start + at as u64 + 5));
        };
        entries.push(Placed {
            place: start + at as u64,
            entry,
        })?;
        at += 5 + payload.len();
    }
    Ok((
        entries,
        Tail {
            slot,
            place: start + at as u64,
        },
    ))
}

// The payload of the record that begins here, if the next gate is there too.
#[tactic(auto, unfolding(crate::specs::Reading::of_four))]
fn payload_of(bytes: &[u8]) -> Option<&[u8]>
    ensures { MatchOption result (length bytes.now ≤ 5 + of_four (part 1 4 bytes.now))
        (λ p. (p.now ≡ part 5 (of_four (part 1 4 bytes.now)) bytes.now) × (length p.now ≡ of_four (part 1 4 bytes.now))
        × (5 + length p.now < length bytes.now)) }
{
    let [_, a, b, c, d, rest @ ..] = bytes else {
        return None;
    };
    let len = u32::from_be_bytes([*a, *b, *c, *d]) as usize;
    if len < rest.len() {
        Some(&rest[..len])
    } else {
        None
    }
}
