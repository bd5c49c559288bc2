// A write with its sync.
ghost use Rattle.std.specs.Prelude.{◌+◌, ◌≤◌, length, OnOk};
ghost use Rattle.alta_disk.specs.Calls.{Syncs};
ghost use Rattle.alta_disk.specs.Disk.{DiskState, Holds, Torn};

use crate::{Disk, Failed};

/// Writes and syncs. After `Ok` a stop leaves the content with these bytes; before, any bytes in their range.
pub fn write_synced<D: Disk>(disk: &mut D, at: u64, bytes: &[u8]) -> Result<(), Failed>
    requires inside { D.tells → at ≤ length (D.state disk.old).content }
    requires fits { at + length bytes.now ≤ (D.state disk.old).limit }
    ensures written { D.tells → OnOk result (Holds (D.state disk.old).content at bytes.now (D.state disk.new).content) }
    ensures syncs { Syncs 0 (Torn at (length bytes.now)) (D.state disk.old) (D.state disk.new) result }
{
    disk.write(at, bytes)?;
    disk.sync()?;
    Ok(())
}
