// Head and tables of a level.
ghost use Rattle.std.specs.Prelude.{◌≡◌, ◌+◌, ◌<◌, ◌≤◌, ◌^◌, length, IfOk};
ghost use Rattle.alta_disk.specs.Calls.{Retrieves};
ghost use Rattle.alta_disk.specs.Disk.{DiskState};
ghost use Rattle.alta_meaning.specs.Opened.{tables_at, extent_of};
ghost use Rattle.alta_opening.specs.Costs.{level_bytes};
ghost use Rattle.alta_opening.specs.Steps.{Answers, outer};

use alta_codec::Extent;
use alta_disk::{Disk, LoadFault, read_behind};
use alta_table::{LevelFault, OpenLevel, head};
use std::alloc::Global;

// The bytes of a head.
const HEAD: usize = 32;

// The same fault of opening.
fn outer(fault: LevelFault) -> LoadFault
    ensures { result ≡ outer fault }
{
    match fault {
        LevelFault::Damaged(place) => LoadFault::Damaged(place),
        LevelFault::Memory => LoadFault::Memory,
    }
}

/// Head and tables of a level: its head is read by one call, its documents and terms by a second. The level keeps the bytes as they
/// were read. Where the disk tells its content, the extent lies on it.
pub(crate) fn read_tables<D: Disk>(
    alloc: Global,
    disk: &mut D,
    extent: Extent,
) -> Result<OpenLevel, LoadFault>
    requires long { 32 ≤ extent.bytes }
    requires below { extent.place + extent.bytes < 2 ^ 64 }
    requires inside { D.tells → extent.place + extent.bytes ≤ length (D.state disk.old).content }
    ensures exact { D.tells → Answers (λ table. table) result (tables_at extent (D.state disk.old).content) }
    ensures extent { IfOk result (λ table. extent_of table ≡ extent) }
    ensures retrieves { Retrieves D.tells extent.bytes (D.state disk.old) (D.state disk.new) result }
    ensures taken { D.tells → (D.state disk.new).taken ≤ (D.state disk.old).taken
        + level_bytes (D.state disk.old).content extent }
{
    let mut front = [0; HEAD];
    disk.read(extent.place, &mut front)?;
    let sizes = match head(&front, extent.place, extent.bytes) {
        Ok(sizes) => sizes,
        Err(fault) => return Err(outer(fault)),
    };
    let behind = sizes.document_bytes + sizes.term_bytes;
    let bytes = read_behind(alloc, disk, &front, extent.place + HEAD as u64, behind)?;
    match OpenLevel::keep(alloc, bytes, extent.place, extent.bytes) {
        Ok(table) => Ok(table),
        Err(fault) => Err(outer(fault)),
    }
}
