// The levels of a root, the oldest first.
ghost use Rattle.std.specs.Prelude.{◌≡◌, ◌≢◌, ◌+◌, ◌++◌, ◌∷◌, ◌≤◌, ℕ, [], length, map, Ok, Err, IfOk, OnOk};
ghost use Rattle.std.specs.List.{All, sum_by};
ghost use Rattle.alta_codec.specs.Rising.{IsRising};
ghost use Rattle.alta_disk.specs.Calls.{Retrieves};
ghost use Rattle.alta_disk.specs.Disk.{DiskState};
ghost use Rattle.alta_meaning.specs.Opened.{levels_in, with_level, extent_of};
ghost use Rattle.alta_opening.specs.Costs.{level_bytes};
ghost use Rattle.alta_opening.specs.Reached.{HasReached};
ghost use Rattle.alta_opening.specs.Steps.{Answers, LiesWithin, admitted};
ghost use Rattle.alta_root.specs.declared.places.TheConstants.{LEVEL_BYTES};
ghost use Rattle.alta_disk.specs.declared.fault.LoadFault.TheVariants.{Damaged, Disk as DiskFault};

use crate::list::ends_within;
use crate::names::note_names;
use crate::order::{Last, are_placed, last_of};
use crate::tables::read_tables;
use alta_codec::{Extent, Loc};
use alta_disk::{Disk, LoadFault};
use alta_names::NameTable;
use alta_root::{LEVEL_BYTES, Root};
use alta_table::OpenLevel;
use std::alloc::Global;

/// The levels that were opened so far, their last row, and the names of their live documents.
#[derive(Drop)]
pub(crate) struct Levels {
    pub(crate) levels: Vec<OpenLevel>,
    pub(crate) last: Last,
    pub(crate) names: NameTable,
}

// No level.
fn no_levels(alloc: Global, root: &Root, deleted: &[Loc]) -> Levels
    ensures reached { HasReached root.now deleted.now result }
    ensures none { result.levels.items ≡ [] }
{
    Levels {
        levels: Vec::new(alloc),
        last: Last { number: 0, end: 0 },
        names: NameTable::new(alloc),
    }
}

// Puts a level behind those that were opened: its order is tested, and then its live names.
fn admit(
    alloc: Global,
    root: &Root,
    deleted: &[Loc],
    found: &mut Levels,
    extent: Extent,
    level: OpenLevel,
) -> Result<(), LoadFault>
    requires reached { HasReached root.now deleted.now found.old }
    requires rising { IsRising deleted.now }
    ensures reached { OnOk result (HasReached root.now deleted.now found.new) }
    ensures levels { OnOk result (admitted root.now deleted.now found.old.levels.items extent level
        ≡ Ok found.new.levels.items) }
    ensures pushed { OnOk result (found.new.levels.items ≡ found.old.levels.items ++ level ∷ []) }
    ensures damaged { (place : ℕ) → result ≡ Err (Damaged place)
        → admitted root.now deleted.now found.old.levels.items extent level ≡ Err place }
    ensures disk { result ≢ Err DiskFault }
{
    let rows = level.documents();
    if !are_placed(root, found.last, rows) {
        return Err(LoadFault::Damaged(extent.place));
    }
    let last = last_of(rows);
    note_names(alloc, &mut found.names, deleted, &found.levels, &level)?;
    found.last = last;
    found.levels.push(level)?;
    Ok(())
}

// Opens a level behind those before it. Where the disk tells its content, the extent lies on it. After an error the levels may no
// longer be used.
fn add_level<D: Disk>(
    alloc: Global,
    disk: &mut D,
    root: &Root,
    deleted: &[Loc],
    limit: u64,
    found: &mut Levels,
    extent: Extent,
) -> Result<(), LoadFault>
    requires reached { HasReached root.now deleted.now found.old }
    requires rising { IsRising deleted.now }
    requires long { D.tells → LEVEL_BYTES ≤ extent.bytes }
    requires inside { D.tells → LiesWithin extent (length (D.state disk.old).content) limit }
    ensures reached { OnOk result (HasReached root.now deleted.now found.new) }
    ensures levels { D.tells → OnOk result (with_level root.now deleted.now found.old.levels.items extent
        (D.state disk.old).content ≡ Ok found.new.levels.items) }
    ensures extents { OnOk result (map extent_of found.new.levels.items
        ≡ map extent_of found.old.levels.items ++ extent ∷ []) }
    ensures damaged { D.tells → (place : ℕ) → result ≡ Err (Damaged place)
        → with_level root.now deleted.now found.old.levels.items extent (D.state disk.old).content ≡ Err place }
    ensures retrieves { Retrieves D.tells extent.bytes (D.state disk.old) (D.state disk.new) result }
    ensures taken { D.tells → (D.state disk.new).taken ≤ (D.state disk.old).taken
        + level_bytes (D.state disk.old).content extent }
{
    if extent.bytes < LEVEL_BYTES || !ends_within(extent, limit) {
        return Err(LoadFault::Damaged(extent.place));
    }
    let level = read_tables(alloc, disk, extent)?;
    admit(alloc, root, deleted, found, extent, level)
}

/// The levels of a root. Where the disk tells its content, they lie on it.
pub(crate) fn read_levels<D: Disk>(
    alloc: Global,
    disk: &mut D,
    root: &Root,
    deleted: &[Loc],
    limit: u64,
) -> Result<Levels, LoadFault>
    requires rising { IsRising deleted.now }
    requires inside { D.tells → All (λ extent. (LEVEL_BYTES ≤ extent.bytes)
        × LiesWithin extent (length (D.state disk.old).content) limit) root.now.levels.items }
    ensures reached { IfOk result (HasReached root.now deleted.now) }
    ensures extents { IfOk result (λ found. map extent_of found.levels.items ≡ root.now.levels.items) }
    ensures exact { D.tells → Answers (λ found. found.levels.items) result
        (levels_in root.now deleted.now (D.state disk.old).content) }
    ensures retrieves { Retrieves D.tells (sum_by (λ extent. extent.bytes) root.now.levels.items) (D.state disk.old)
        (D.state disk.new) result }
    ensures taken { D.tells → (D.state disk.new).taken ≤ (D.state disk.old).taken
        + sum_by (level_bytes (D.state disk.old).content) root.now.levels.items }
{
    let mut found = no_levels(alloc, root, deleted);
    let extents = root.levels.as_slice();
    for extent in extents {
        match add_level(alloc, disk, root, deleted, limit, &mut found, *extent) {
            Ok(()) => {}
            Err(fault) => return Err(fault),
        }
    }
    Ok(found)
}
