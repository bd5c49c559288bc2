// The other slot's gate is closed and synced where it is open, its body is written and synced, and its gate is opened and synced.
// What was pending before becomes firm by the first of these syncs, which comes before the gate is opened.
// A closed gate is left alone. A pending write over it may leave it open, over an old or empty body, and such an image would stand
// for nothing. So the gate is read first, one byte, and the write and its sync are skipped where it is closed.
ghost use Rattle.std.specs.Prelude.{◌≡◌, ◌+◌, ◌≤◌, ◌∷◌, length, OnOk};
ghost use Rattle.alta_layout.specs.declared.places.TheConstants.{HEAD_BYTES, SLOT_BYTES};
ghost use Rattle.alta_layout.specs.Places.{slot_start};
ghost use Rattle.alta_disk.specs.Disk.{DiskState, Each, Holds, Passes, Stands, Torn};
ghost use Rattle.alta_disk.specs.Calls.{Charges, Syncs};
ghost use Rattle.alta_disk.specs.Parts.{part};
ghost use Rattle.alta_root.specs.Root.{body_of};
ghost use Rattle.alta_root.specs.Slots.{Counts};
ghost use Rattle.alta_root.specs.Switches.{MayFollow, Switching, Switched, HasGateAs, Closes, Closed, IsClosed};

use crate::Root;
use crate::spelling::spell;
use alta_disk::{Disk, Failed, write_synced};
use alta_layout::{GATE_CLOSED, GATE_OPEN, HEAD_BYTES, Slot};

/// Makes this root the one that counts, in the slot that does not count now. The disk's content has all that the root
/// names, and a closed gate at the start of its half of the journal. These may be pending, but the slot's gate may not.
///
/// The slot's gate is closed where it stands open, the body is written behind it, and the gate is opened, each followed
/// by a sync. So what was pending is firm before this root can count. At each moment every image has what it had outside the
/// slot, and the root that counted before, or this one where it had all of the content; after `Ok` this one counts in every
/// image, and its slot has its one spelling, with zeros to its end. It takes no memory, and reads one byte.
///
/// # Errors
///
/// `Failed` where a call of the disk failed. The images are then as at some moment before.
pub fn switch<D: Disk>(disk: &mut D, slot: Slot, root: &Root) -> Result<(), Failed>
    requires pending { Each (D.state disk.old).images (HasGateAs slot (D.state disk.old).content) }
    requires follows { D.tells → MayFollow slot root.now (D.state disk.old).content }
    requires limit { HEAD_BYTES ≤ (D.state disk.old).limit }

    ensures switched { D.tells → OnOk result
        (Switched slot root.now (D.state disk.old).content (D.state disk.new).content) }
    ensures written { D.tells → OnOk result (part (slot_start slot) SLOT_BYTES (D.state disk.new).content
        ≡ GATE_OPEN ∷ body_of root.now) }
    ensures counts { OnOk result (Stands D.tells (D.state disk.new) (Counts slot root.now)) }

    // At each moment of the call.
    ensures syncs { Syncs 1 (Switching slot root.now (D.state disk.old).content) (D.state disk.old)
        (D.state disk.new) result }
{
    let body = spell(root);
    close(disk, slot)?;
    write_body(disk, slot, body.as_slice())?;
    write_synced(disk, slot.start(), &[GATE_OPEN])?;
    Ok(())
}

// Closes a slot's gate and syncs. One that stands closed is left alone, without a sync: a write over it that a stop cuts short
// could open it over an old body.
fn close<D: Disk>(disk: &mut D, slot: Slot) -> Result<(), Failed>
    requires pending { Each (D.state disk.old).images (HasGateAs slot (D.state disk.old).content) }
    requires size { D.tells → HEAD_BYTES ≤ length (D.state disk.old).content }
    requires limit { HEAD_BYTES ≤ (D.state disk.old).limit }
    ensures closed { D.tells → OnOk result (Closed slot (D.state disk.old).content (D.state disk.new).content) }
    ensures shut { OnOk result (Each (D.state disk.new).images (IsClosed slot)) }
    ensures images { Passes (Closes slot) (D.state disk.old) (D.state disk.new) }
    ensures charges { Charges 1 (D.state disk.old) (D.state disk.new) result }
{
    let mut gate = [0; 1];
    disk.read(slot.start(), &mut gate)?;
    if gate[0] != GATE_OPEN {
        return Ok(());
    }
    write_synced(disk, slot.start(), &[GATE_CLOSED])?;
    Ok(())
}

// Writes a root's body behind the slot's gate, and syncs: all that was pending is firm before the gate is opened.
fn write_body<D: Disk>(disk: &mut D, slot: Slot, body: &[u8]) -> Result<(), Failed>
    requires inside { D.tells → slot_start slot + 1 ≤ length (D.state disk.old).content }
    requires fits { slot_start slot + 1 + length body.now ≤ (D.state disk.old).limit }
    ensures written { D.tells → OnOk result
        (Holds (D.state disk.old).content (slot_start slot + 1) body.now (D.state disk.new).content) }
    ensures syncs { Syncs 0 (Torn (slot_start slot + 1) (length body.now)) (D.state disk.old)
        (D.state disk.new) result }
{
    write_synced(disk, slot.start() + 1, body)
}
