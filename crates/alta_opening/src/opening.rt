// What a root names, up to its journal.
ghost use Rattle.std.specs.Prelude.{◌≡◌, ◌+◌, ◌≤◌, ℕ, true, length, map, Err, IfOk};
ghost use Rattle.alta_layout.specs.declared.slot.Slot.{Slot};
ghost use Rattle.alta_codec.specs.Rising.{IsRising};
ghost use Rattle.alta_content.specs.Rows.{AreDocuments};
ghost use Rattle.alta_disk.specs.Calls.{Retrieves};
ghost use Rattle.alta_disk.specs.Disk.{DiskState};
ghost use Rattle.alta_meaning.specs.Broken.{HasLevels, IsBrokenAt};
ghost use Rattle.alta_meaning.specs.Opened.{Opened, IsOpened, have_ends, known_at, live_in, table_rows, extent_of};
ghost use Rattle.alta_meaning.specs.Ordered.{AreBelow, IsOrdered};
ghost use Rattle.alta_root.specs.Slots.{Counts};
ghost use Rattle.alta_opening.specs.Costs.{named_bytes, whole_bytes};
ghost use Rattle.alta_meaning.specs.Names.{AreNames};
ghost use Rattle.alta_disk.specs.declared.fault.LoadFault.TheVariants.{Damaged};

use crate::ends::have_all;
use crate::levels::read_levels;
use crate::list::read_list;
use alta_codec::Loc;
use alta_disk::{Disk, LoadFault};
use alta_names::NameTable;
use alta_root::Root;
use alta_table::OpenLevel;
use std::alloc::Global;

/// What a root names, opened: all but its journal.
#[derive(Drop)]
pub struct OpenLevels {
    /// The ends of the deleted documents, rising.
    pub deleted: Vec<Loc>,
    /// Head and tables of each level, the oldest first.
    pub levels: Vec<OpenLevel>,
    /// The numbers of the levels' live documents by their names.
    pub names: NameTable,
}

/// Opens what the counting root names, in this order: the deletion list; of each level, the oldest first, its head and tables, its
/// order behind the levels before it and against the root, and its live names; then the deletion list against the levels. Neither the
/// journal nor a stream or a summary is read, and nothing is written.
///
/// The list is one call of the disk, and a level is two: 32 bytes, then its documents and terms. Each row is looked at in one walk beside
/// the deleted ends, and once more to look its end up among them, by halves, and to put a live name into the map, by its hash; of the
/// order, the first row and the last. Room for the names of a level is made at once.
///
/// # Errors
///
/// `Damaged` where one of these rules is broken, with the place of the first that is, in bytes from the start of the disk; never where the
/// disk can be opened. `Disk` only where a call of the disk failed. `Memory` where there is too little memory.
pub fn open_levels<D: Disk>(
    alloc: Global,
    disk: &mut D,
    root: &Root,
) -> Result<OpenLevels, LoadFault>
    requires { D.tells → (slot : Slot) × Counts slot root.now (D.state disk.old).content }
    ensures levels { D.tells → (slot : Slot) → Counts slot root.now (D.state disk.old).content
        → IfOk result (λ found. HasLevels slot root.now found.deleted.items found.levels.items
        (D.state disk.old).content) }
    ensures extents { IfOk result (λ found. map extent_of found.levels.items ≡ root.now.levels.items) }
    ensures ends { IfOk result (λ found. have_ends found.levels.items found.deleted.items ≡ true) }
    ensures names { IfOk result (λ found. AreNames found.names
        (live_in found.deleted.items (table_rows found.levels.items))) }
    ensures rows { IfOk result (λ found. AreDocuments (table_rows found.levels.items)) }
    ensures below { IfOk result (λ found. AreBelow root.now (table_rows found.levels.items)) }
    ensures ordered { IfOk result (λ found. IsOrdered (known_at root.now found.deleted.items found.levels.items)) }
    ensures rising { IfOk result (λ found. IsRising found.deleted.items) }
    ensures damaged { D.tells → (slot : Slot) → Counts slot root.now (D.state disk.old).content → (place : ℕ)
        → result ≡ Err (Damaged place)
        → IsBrokenAt (D.state disk.old).content place }
    ensures opened { D.tells → (opened : Opened) → IsOpened opened (D.state disk.old).content → (place : ℕ)
        → result ≡ Err (Damaged place) → ⊥ }
    ensures retrieves { Retrieves D.tells (whole_bytes root.now) (D.state disk.old) (D.state disk.new) result }
    ensures taken { D.tells → (D.state disk.new).taken ≤ (D.state disk.old).taken
        + named_bytes root.now (D.state disk.old).content }
{
    let limit = disk.limit();
    let deleted = match read_list(alloc, disk, root, limit) {
        Ok(deleted) => deleted,
        Err(fault) => return Err(fault),
    };
    let found = match read_levels(alloc, disk, root, &deleted, limit) {
        Ok(found) => found,
        Err(fault) => return Err(fault),
    };
    if !have_all(&found.levels, &deleted) {
        return Err(LoadFault::Damaged(root.deletions.place));
    }
    Ok(OpenLevels {
        deleted,
        levels: found.levels,
        names: found.names,
    })
}
