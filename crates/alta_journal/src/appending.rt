// A record is written and synced behind its closed gate, and then the gate is opened and synced. While that sync is still to come, the
// body of the next record may be written behind its own gate, which stands closed and firm.
ghost use Rattle.std.specs.Prelude.{◌≡◌, ◌⊎◌, ℕ, ◌+◌, ◌<◌, ◌≤◌, ◌^◌, [], ◌∷◌, ◌++◌, length, None, IfOk, IfErr, IsTrue, OnOk, OnErr};
ghost use Rattle.alta_layout.specs.declared.places.TheConstants.{GATE_OPEN, GATE_CLOSED, HEAD_BYTES};
ghost use Rattle.alta_layout.specs.Places.{half_start};
ghost use Rattle.alta_codec.specs.Faults.{Rose};
ghost use Rattle.alta_disk.specs.Calls.{Charges, Costs};
ghost use Rattle.alta_disk.specs.Disk.{DiskState, Holds, Stands, Torn, Only, Passes};
ghost use Rattle.alta_journal.specs.declared.appending.JournalFault.TheVariants.{Disk as DiskFault};
ghost use Rattle.alta_journal.specs.Places.{left_behind, HasClosedGate};
ghost use Rattle.alta_journal.specs.Entry.{MayBeRecorded};
ghost use Rattle.alta_journal.specs.Record.{Record, record_of, body_of};
ghost use Rattle.alta_journal.specs.Journal.{EndsAt, Appended, Appends, HasBytes, Puts, StandsAhead, bytes_ahead};

use crate::{Ready, Tail};
use alta_codec::Failed;
use alta_disk::{Disk, write_synced};
use alta_layout::{GATE_CLOSED, GATE_OPEN, HEAD_BYTES, Slot};

/// Why a record was not appended.
#[derive(Clone, Copy, Debug, PartialEq, Eq)]
pub enum JournalFault {
    /// The record does not fit in the half, and nothing was called. It needs this many bytes behind its gate, the
    /// next gate among them, and this many are left there.
    Full { need: u64, left: u64 },
    /// A call of the disk failed. The record is there whole or not at all, and the tail may no longer be used.
    Disk,
}

impl From<Failed> for JournalFault {
    ghost from_gives = { λ _ e. e ≡ DiskFault };

    fn from(_: Failed) -> Self {
        JournalFault::Disk
    }
}

/// Appends a record at the tail of its half, by two writes, each with its sync. After `Ok` every image that a stop may leave has the
/// record, under a root of a version that may have it, and behind it a closed gate, and all else as it was, and the tail stands
/// there. At each moment before, an image has the records that it had, with the new one or without, and each byte outside the record
/// and the next gate.
///
/// In every image that a stop may leave, a closed gate stands at the tail's place.
///
/// # Errors
///
/// `Full` exactly where the record and the next gate go past the end of the half; then nothing was called.
/// `Disk` where a call of the disk failed. After an error the tail is as it was.
pub fn append<D: Disk>(disk: &mut D, tail: &mut Tail, ready: &Ready) -> Result<(), JournalFault>
    requires closed { Stands D.tells (D.state disk.old) (HasClosedGate tail.old.place) }
    requires limit { HEAD_BYTES ≤ (D.state disk.old).limit }

    ensures appended { (version : ℕ) → MayBeRecorded version ready.now.entry → D.tells
        → OnOk result (Appended version (half_start tail.old.slot) tail.old.place ready.now.entry
        (D.state disk.old).content (D.state disk.new).content) }
    ensures written { D.tells → OnOk result
        (Holds (D.state disk.old).content tail.old.place (record_of ready.now.entry ++ GATE_CLOSED ∷ [])
        (D.state disk.new).content) }
    ensures closed { OnOk result (Stands D.tells (D.state disk.new) (HasClosedGate tail.new.place)) }
    ensures durable { OnOk result (Only (D.state disk.new).content (D.state disk.new).images) }
    ensures tail { OnOk result (tail.new.place ≡ tail.old.place + length (record_of ready.now.entry)) }
    ensures tail_err { OnErr result (tail.new ≡ tail.old) }
    ensures slot { tail.new.slot ≡ tail.old.slot }

    // At each moment of the call.
    ensures images { (version : ℕ) → MayBeRecorded version ready.now.entry
        → Passes (Appends version (half_start tail.old.slot) tail.old.place ready.now.entry) (D.state disk.old)
        (D.state disk.new) }
    ensures outside { Passes (Torn tail.old.place (1 + length (body_of ready.now.entry))) (D.state disk.old)
        (D.state disk.new) }

    ensures full { left_behind (half_start tail.old.slot) tail.old.place < length (body_of ready.now.entry)
        → (result ≡ Err (JournalFault.Full (length (body_of ready.now.entry))
        (left_behind (half_start tail.old.slot) tail.old.place))) × (disk.new ≡ disk.old) }
    ensures room { length (body_of ready.now.entry) ≤ left_behind (half_start tail.old.slot) tail.old.place
        → IfErr result (λ e. e ≡ DiskFault) }
    ensures cause { result ≡ Err JournalFault.Disk → Rose (D.state disk.old).faults (D.state disk.new).faults }
    ensures costs { Costs 0 (D.state disk.old) (D.state disk.new) }
{
    append_ahead(disk, tail, ready, None, None)?;
    Ok(())
}

/// Appends a record as [`append`] does, of which the body may stand behind the closed gate already, and writes the body of the
/// record to come behind the next gate. One sync makes firm the gate that is opened and what is written ahead.
///
/// `ahead` is the record whose body stands behind the closed gate at the tail, in every image that a stop may leave, where there is
/// one. Where it is the record that is appended, its body is not written again, and needs no sync of its own; else it is written over.
/// `next` is the record to come, if it is known. The answer is that record where its body was written ahead: it stands behind the closed
/// gate at the new tail. It was not written where it has no room in the half. A body behind a closed gate counts for nothing, so another
/// record may come in its place.
///
/// # Errors
///
/// As those of [`append`].
pub fn append_ahead<D: Disk>(
    disk: &mut D,
    tail: &mut Tail,
    ready: &Ready,
    ahead: Option<Ready>,
    next: Option<Ready>,
) -> Result<Option<Ready>, JournalFault>
    requires closed { Stands D.tells (D.state disk.old) (HasClosedGate tail.old.place) }
    requires stands { Stands D.tells (D.state disk.old) (StandsAhead tail.old.place ahead) }
    requires limit { HEAD_BYTES ≤ (D.state disk.old).limit }

    ensures appended { (version : ℕ) → MayBeRecorded version ready.now.entry → D.tells
        → OnOk result (Appended version (half_start tail.old.slot) tail.old.place ready.now.entry
        (D.state disk.old).content (D.state disk.new).content) }
    ensures written { D.tells → IfOk result
        (λ left. Holds (D.state disk.old).content tail.old.place (GATE_OPEN
        ∷ (body_of ready.now.entry ++ bytes_ahead left)) (D.state disk.new).content) }
    ensures stands { IfOk result (λ left. Stands D.tells (D.state disk.new) (StandsAhead tail.new.place left)) }
    ensures left { IfOk result (λ left. (left ≡ None) ⊎ (left ≡ next)) }
    ensures closed { OnOk result (Stands D.tells (D.state disk.new) (HasClosedGate tail.new.place)) }
    ensures durable { OnOk result (Only (D.state disk.new).content (D.state disk.new).images) }
    ensures tail { OnOk result (tail.new.place ≡ tail.old.place + length (record_of ready.now.entry)) }
    ensures tail_err { OnErr result (tail.new ≡ tail.old) }
    ensures slot { tail.new.slot ≡ tail.old.slot }

    // At each moment of the call.
    ensures images { (version : ℕ) → MayBeRecorded version ready.now.entry
        → Passes (Appends version (half_start tail.old.slot) tail.old.place ready.now.entry) (D.state disk.old)
        (D.state disk.new) }
    ensures outside { Passes (Torn tail.old.place (1 + (length (body_of ready.now.entry) + length (bytes_ahead next))))
        (D.state disk.old) (D.state disk.new) }

    ensures full { left_behind (half_start tail.old.slot) tail.old.place < length (body_of ready.now.entry)
        → (result ≡ Err (JournalFault.Full (length (body_of ready.now.entry))
        (left_behind (half_start tail.old.slot) tail.old.place))) × (disk.new ≡ disk.old) }
    ensures room { length (body_of ready.now.entry) ≤ left_behind (half_start tail.old.slot) tail.old.place
        → IfErr result (λ e. e ≡ DiskFault) }
    ensures cause { result ≡ Err JournalFault.Disk → Rose (D.state disk.old).faults (D.state disk.new).faults }
    ensures costs { Costs 0 (D.state disk.old) (D.state disk.new) }
{
    let bytes = ready.bytes();
    let need = bytes.len() as u64;
    let left = tail.room();
    if need > left {
        return Err(JournalFault::Full { need, left });
    }
    let coming = fitting(next, left - need);
    put_bodies(disk, tail.place + 1, bytes, ahead, &coming)?;
    write_synced(disk, tail.place, &[GATE_OPEN])?;
    tail.place += need;
    Ok(coming)
}

// The record to come, where it has room in so many bytes.
fn fitting(next: Option<Ready>, room: u64) -> Option<Ready>
    ensures is { (result ≡ None) ⊎ (result ≡ next) }
    ensures fits { length (bytes_ahead result) ≤ room }
{
    match next {
        None => None,
        Some(ready) => {
            if ready.bytes().len() as u64 <= room {
                Some(ready)
            } else {
                None
            }
        }
    }
}

// Writes a body, and behind it that of the record to come, where there is one, without a sync.
fn put_bodies<D: Disk>(
    disk: &mut D,
    at: u64,
    bytes: &[u8],
    ahead: Option<Ready>,
    next: &Option<Ready>,
) -> Result<(), Failed>
    requires inside { D.tells → at ≤ length (D.state disk.old).content }
    requires fits { at + length bytes.now + length (bytes_ahead next.now) ≤ (D.state disk.old).limit }
    requires number { at + length bytes.now < 2 ^ 64 }
    requires stands { Stands D.tells (D.state disk.old) (HasBytes at (bytes_ahead ahead)) }
    ensures written { D.tells → OnOk result
        (Holds (D.state disk.old).content at (bytes.now ++ bytes_ahead next.now) (D.state disk.new).content) }
    ensures stands { OnOk result (Stands D.tells (D.state disk.new) (HasBytes at bytes.now)) }
    ensures next { D.tells → OnOk result (HasBytes (at + length bytes.now) (bytes_ahead next.now)
        (D.state disk.new).content) }
    ensures puts { Puts at (length bytes.now + length (bytes_ahead next.now)) (D.state disk.old)
        (D.state disk.new) result }
{
    put_body(disk, at, bytes, ahead)?;
    match next {
        None => Ok(()),
        Some(ready) => disk.write(at + bytes.len() as u64, ready.bytes()),
    }
}

// Writes a body and syncs, where it does not stand there already.
fn put_body<D: Disk>(
    disk: &mut D,
    at: u64,
    bytes: &[u8],
    ahead: Option<Ready>,
) -> Result<(), Failed>
    requires inside { D.tells → at ≤ length (D.state disk.old).content }
    requires fits { at + length bytes.now ≤ (D.state disk.old).limit }
    requires stands { Stands D.tells (D.state disk.old) (HasBytes at (bytes_ahead ahead)) }
    ensures written { D.tells → OnOk result (Holds (D.state disk.old).content at bytes.now (D.state disk.new).content) }
    ensures stands { OnOk result (Stands D.tells (D.state disk.new) (HasBytes at bytes.now)) }
    ensures puts { Puts at (length bytes.now) (D.state disk.old) (D.state disk.new) result }
{
    match ahead {
        Some(ready) if ready.bytes() == bytes => Ok(()),
        _ => write_synced(disk, at, bytes),
    }
}

/// Closes the first gate of a half, by one write without a sync. After `Ok` the half has no record, and the answer is its
/// tail; a stop may leave any byte at that gate until a sync. Nothing but that byte has changed. The disk has at least
/// [`HEAD_BYTES`](crate::HEAD_BYTES).
///
/// # Errors
///
/// `Failed` where the write failed. A stop may then leave the gate open or closed.
pub fn close_half<D: Disk>(disk: &mut D, slot: Slot) -> Result<Tail, Failed>
    requires size { D.tells → HEAD_BYTES ≤ length (D.state disk.old).content }
    requires limit { HEAD_BYTES ≤ (D.state disk.old).limit }
    ensures written { D.tells → OnOk result
        (Holds (D.state disk.old).content (half_start slot) (GATE_CLOSED ∷ []) (D.state disk.new).content) }
    ensures empty { (version : ℕ) → D.tells
        → OnOk result (EndsAt version (half_start slot) (half_start slot) [] (D.state disk.new).content) }
    ensures closed { D.tells → OnOk result (HasClosedGate (half_start slot) (D.state disk.new).content) }
    ensures tail { IfOk result (λ tail. (tail.slot ≡ slot) × (tail.place ≡ half_start slot)) }
    ensures images { Passes (Torn (half_start slot) 1) (D.state disk.old) (D.state disk.new) }
    ensures charges { Charges 0 (D.state disk.old) (D.state disk.new) result }
{
    disk.write(slot.half_start(), &[GATE_CLOSED])?;
    Ok(Tail {
        slot,
        place: slot.half_start(),
    })
}
