// The deletion list of a root.
ghost use Rattle.std.specs.Prelude.{◌≡◌, ◌≢◌, ◌↔◌, ◌+◌, ◌<◌, ◌≤◌, ◌^◌, length, true, Err, IsTrue, IfOk};
ghost use Rattle.alta_codec.specs.Rising.{IsRising};
ghost use Rattle.alta_disk.specs.Calls.{Retrieves};
ghost use Rattle.alta_disk.specs.Disk.{DiskState};
ghost use Rattle.alta_meaning.specs.Opened.{deleted_in, list_at};
ghost use Rattle.alta_postings.specs.Deltas.{first_fault};
ghost use Rattle.alta_opening.specs.Steps.{Answers, LiesWithin};
ghost use Rattle.alta_disk.specs.declared.fault.LoadFault.TheVariants.{Disk as DiskFault};

use alta_codec::{Extent, Loc};
use alta_disk::{Disk, LoadFault, read_part};
use alta_postings::Stream;
use alta_root::Root;
use std::alloc::Global;

// Whether the extent ends at the limit or before.
pub(crate) fn ends_within(extent: Extent, limit: u64) -> bool
    ensures { IsTrue result ↔ extent.place + extent.bytes ≤ limit }
{
    extent.place <= limit && extent.bytes <= limit - extent.place
}

/// The deleted ends of a root: its deletion list is read by one call, where there is one. Where the disk tells its content, the
/// list lies on it.
pub(crate) fn read_list<D: Disk>(
    alloc: Global,
    disk: &mut D,
    root: &Root,
    limit: u64,
) -> Result<Vec<Loc>, LoadFault>
    requires { D.tells → LiesWithin root.now.deletions (length (D.state disk.old).content) limit }
    ensures exact { D.tells → Answers (λ ends. ends.items) result (deleted_in root.now (D.state disk.old).content) }
    ensures rising { IfOk result (λ ends. IsRising ends.items) }
    ensures retrieves { Retrieves D.tells root.now.deletions.bytes (D.state disk.old) (D.state disk.new) result }
{
    let extent = root.deletions;
    if !ends_within(extent, limit) {
        return Err(LoadFault::Damaged(extent.place));
    }
    if extent.bytes == 0 {
        return Ok(Vec::new(alloc));
    }
    let bytes = read_part(alloc, disk, extent.place, extent.bytes)?;
    ends_in(alloc, &bytes, extent.place)
}

// The list that the bytes at a place of the disk spell.
fn ends_in(alloc: Global, bytes: &[u8], place: u64) -> Result<Vec<Loc>, LoadFault>
    requires { place + length bytes.now < 2 ^ 64 }
    ensures exact { Answers (λ ends. ends.items) result (list_at place bytes.now (first_fault bytes.now)) }
    ensures rising { IfOk result (λ ends. IsRising ends.items) }
    ensures disk { result ≢ Err DiskFault }
{
    match Stream::open(bytes) {
        Ok(stream) => Ok(stream.locations(alloc)?),
        Err(fault) => Err(LoadFault::Damaged(place + fault.place as u64)),
    }
}
