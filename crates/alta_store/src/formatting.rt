// A disk without documents.
ghost use Rattle.std.specs.Prelude.{◌≡◌, ◌≤◌, ◌+◌, ◌++◌, ◌↔◌, true, drop, length, IfOk, OnOk};
ghost use Rattle.alta_layout.specs.declared.places.TheConstants.{HEAD_BYTES};
ghost use Rattle.alta_codec.specs.Faults.{HasCause};
ghost use Rattle.alta_disk.specs.Disk.{DiskState, Same, Passes, Stands};
ghost use Rattle.alta_meaning.specs.Holding.{IsHeld};
ghost use Rattle.alta_meaning.specs.Opened.{IsOpened};
ghost use Rattle.alta_meaning.specs.Standing.{StandsFor};
ghost use Rattle.alta_meaning.specs.Switching.{empty_held, empty_opened};
ghost use Rattle.alta_store.specs.Clearing.{AreZero, Clears, IsClear, empty_head};
ghost use Rattle.alta_machine.specs.States.{empty_state};

use alta_codec::Failed;
use alta_disk::{Disk, write_synced};
use alta_layout::{GATE_OPEN, HEAD_BYTES};
use alta_root::VERSION;

/// The fields behind the gate of a root without documents: the last version, sequence 0, no levels, next number 1, next
/// location 1, no deletion list.
const EMPTY_FIELDS: [u8; 39] = [
    VERSION, 0, 0, 0, 0, 0, 0, 0, 0, 0, 0, 0, 0, 0, 1, 0, 0, 0, 0, 0, 0, 0, 1, 0, 0, 0, 0, 0, 0, 0,
    0, 0, 0, 0, 0, 0, 0, 0, 0,
];

/// Writes an index without documents over what the disk holds: zeros over both slots and both halves of the journal, then
/// the fields of the first slot, then its gate, each synced before the next. After `Ok` every image that a stop may
/// leave stands for the empty state: the first slot counts, and has no level, no deleted end and no entry, and the first number and
/// location come next. Bytes behind the journal stay as they are.
///
/// # Errors
///
/// `Failed` where a call of the disk failed. Then nothing is promised of what the disk holds.
pub fn make_index<D: Disk>(disk: &mut D) -> Result<(), Failed>
    requires { HEAD_BYTES ≤ (D.state disk.old).limit }
    ensures formatted { OnOk result (Stands D.tells (D.state disk.new) (StandsFor empty_state)) }
    ensures opened { OnOk result (Stands D.tells (D.state disk.new) (IsOpened empty_opened)) }
    ensures holds { OnOk result (Stands D.tells (D.state disk.new) (IsHeld empty_held)) }
    // The bytes to the journal's end are these, and those behind it stay.
    ensures written { D.tells → OnOk result ((D.state disk.new).content
        ≡ empty_head ++ drop HEAD_BYTES (D.state disk.old).content) }
    ensures cause { HasCause (D.state disk.old).faults (D.state disk.new).faults result }
    ensures taken { (D.state disk.new).taken ≡ (D.state disk.old).taken }
    ensures same_limit { (D.state disk.new).limit ≡ (D.state disk.old).limit }
{
    clear_head(disk)?;
    disk.sync()?;
    write_synced(disk, 1, &EMPTY_FIELDS)?;
    write_synced(disk, 0, &[GATE_OPEN])?;
    Ok(())
}

// Writes zeros over the slots and the journal.
fn clear_head<D: Disk>(disk: &mut D) -> Result<(), Failed>
    requires { HEAD_BYTES ≤ (D.state disk.old).limit }
    ensures { Clears D.tells HEAD_BYTES (D.state disk.old) (D.state disk.new) result }
{
    let zeros = [0u8; 65_536];
    put_zeros(disk, &zeros)
}

// Writes zeros over the slots and the journal, as many at once as are given.
fn put_zeros<D: Disk>(disk: &mut D, zeros: &[u8]) -> Result<(), Failed>
    requires limit { HEAD_BYTES ≤ (D.state disk.old).limit }
    requires zeros { AreZero zeros.now }
    requires some { 1 ≤ length zeros.now }
    ensures { Clears D.tells HEAD_BYTES (D.state disk.old) (D.state disk.new) result }
{
    let mut at = 0;
    while at < HEAD_BYTES {
        let n = (HEAD_BYTES - at).min(zeros.len() as u64);
        match put_part(disk, at, &zeros[..n as usize]) {
            Ok(()) => at += n,
            Err(failed) => return Err(failed),
        }
    }
    Ok(())
}

// Writes zeros behind those that are there.
fn put_part<D: Disk>(disk: &mut D, at: u64, zeros: &[u8]) -> Result<(), Failed>
    requires limit { HEAD_BYTES ≤ (D.state disk.old).limit }
    requires clear { D.tells → IsClear at (D.state disk.old).content }
    requires zeros { AreZero zeros.now }
    requires fits { at + length zeros.now ≤ HEAD_BYTES }
    ensures { Clears D.tells (at + length zeros.now) (D.state disk.old) (D.state disk.new) result }
{
    disk.write(at, zeros)?;
    Ok(())
}
