// A switch of the root to other levels.
ghost use Rattle.std.specs.Prelude.{IfOk};
ghost use Rattle.alta_disk.specs.Disk.{DiskState};
ghost use Rattle.alta_rewrite.specs.Calls.{AnswersRoot, CanName, CanSwitch, RewritesHeld, RewritesOpened, SwitchesDisk, WritesNothing};

use crate::draft::{make_draft, pieces_in};
use crate::putting::put_root;
use crate::{Ends, NextLevels, RewriteFault};
use alta_codec::{DocNumber, Loc};
use alta_disk::Disk;
use alta_layout::Slot;
use alta_level::OpenLevel;
use alta_root::Root;
use std::alloc::Global;

/// What counts behind a rewrite.
#[derive(Drop)]
pub struct Rewritten {
    /// The slot that counts.
    pub slot: Slot,
    /// Its root.
    pub root: Root,
    /// The tables of the level in front of those that stay, where there is one.
    pub oldest: Option<OpenLevel>,
    /// The tables of the level behind them, where there is one.
    pub newest: Option<OpenLevel>,
}

/// Writes the levels that come anew, and the deletion list where it has changed, and makes a root the one that counts that names
/// them between and beside the levels that stay. The journal of that root is empty. Nothing is pending at the start.
///
/// `slot` and `root` count; `next` and `location` stand behind all documents, as bounds of a root. At most 16 levels come. Each that
/// is written takes the first gap that holds it beside the root's extents and those before it, and then the deletion list. All
/// memory is taken before the first write; each level and the list are one write. At each moment every image stands for the state
/// of before, where the levels to come have its documents.
///
/// # Errors
///
/// `Disk` where a call of the disk failed; the images are then as at some moment before. `Memory` where there is too little
/// memory, and `Full` where no gap holds a level or the list, with the bytes that are needed and the greatest gap. In both cases
/// nothing was written.
pub fn rewrite<D: Disk>(
    alloc: Global,
    disk: &mut D,
    slot: Slot,
    root: &Root,
    levels: NextLevels,
    ends: Ends<'_>,
    next: DocNumber,
    location: Loc,
) -> Result<Rewritten, RewriteFault>
    requires switch { CanSwitch D.tells slot root.now (D.state disk.old) }
    requires names { CanName root.now levels ends next location }

    ensures held { RewritesHeld D.tells slot levels ends.entry next location (D.state disk.old)
        (D.state disk.new) result }
    ensures opened { RewritesOpened D.tells levels ends.entry next location (D.state disk.old)
        (D.state disk.new) result }
    ensures answers { IfOk result (AnswersRoot slot root.now levels next location) }
    ensures nothing { WritesNothing (D.state disk.old).limit root.now levels ends.entry disk.old disk.new result }
    ensures disk { SwitchesDisk D.tells root.now (D.state disk.old) (D.state disk.new) result }
{
    let limit = disk.limit();
    let draft = match make_draft(alloc, root, levels, ends, next, location, limit) {
        Ok(draft) => draft,
        Err(fault) => return Err(fault),
    };
    let pieces = pieces_in(alloc, &draft)?;
    put_root(disk, slot.other(), &draft.root, &pieces)?;
    drop(pieces);
    Ok(Rewritten {
        slot: slot.other(),
        root: draft.root,
        oldest: draft.oldest_level,
        newest: draft.newest_level,
    })
}
