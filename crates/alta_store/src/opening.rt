// Whether a disk has an index.
ghost use Rattle.std.specs.Prelude.{◌≡◌, ◌↔◌, ◌*◌, true, false, IfOk};
ghost use Rattle.alta_codec.specs.Faults.{HasCause};
ghost use Rattle.alta_disk.specs.Calls.{Reads};
ghost use Rattle.alta_disk.specs.Disk.{DiskState};
ghost use Rattle.alta_root.specs.Slots.{HasNoRoot};

use alta_codec::Failed;
use alta_disk::Disk;
use alta_root::{RootFault, read_roots};

/// Whether the disk has an index: at least the bytes of both slots, and an open gate in one of them. Nothing is written.
///
/// # Errors
///
/// `Failed` where a call of the disk failed.
pub fn has_index<D: Disk>(disk: &mut D) -> Result<bool, Failed>
    ensures found { D.tells → IfOk result (λ found. (found ≡ true) ↔ (HasNoRoot (D.state disk.old).content → ⊥)) }
    ensures none { D.tells → IfOk result (λ found. (found ≡ false) ↔ HasNoRoot (D.state disk.old).content) }
    ensures cause { HasCause (D.state disk.old).faults (D.state disk.new).faults result }
    ensures reads { Reads D.tells 592 (D.state disk.old) (D.state disk.new) }
{
    match read_roots(disk) {
        Ok(_) => Ok(true),
        Err(RootFault::Damaged(_)) => Ok(true),
        Err(RootFault::NoRoot) => Ok(false),
        Err(RootFault::Disk) => Err(Failed),
    }
}
