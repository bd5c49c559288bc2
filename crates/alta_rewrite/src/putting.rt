// Pieces are written, a gate is closed, and the root is switched, whose first sync makes both firm.
// They need no sync of their own: they touch nothing that the root in force names, nor its slot, so an image with any part of them
// is opened as before, and a switch syncs before it opens a gate.
ghost use Rattle.std.specs.Prelude.{◌≡◌, ◌≤◌, ◌+◌, [], List, ℕ, length, OnOk};
ghost use Rattle.std.specs.List.{All};
ghost use Rattle.alta_layout.specs.declared.places.TheConstants.{HEAD_BYTES};
ghost use Rattle.alta_codec.specs.declared.extent.Extent.{Extent};
ghost use Rattle.alta_disk.specs.Calls.{Charges, Syncs};
ghost use Rattle.alta_disk.specs.Disk.{DiskState, LeavesOnly, Only, Passes};
ghost use Rattle.alta_disk.specs.Parts.{Touches};
ghost use Rattle.alta_meaning.specs.Holding.{Holding, IsHeld};
ghost use Rattle.alta_meaning.specs.Levels.{Level};
ghost use Rattle.alta_meaning.specs.Opened.{Opened, IsOpened};
ghost use Rattle.alta_meaning.specs.Standing.{StandsFor, StandsForEither, view_of};
ghost use Rattle.alta_meaning.specs.Views.{state_of};
ghost use Rattle.alta_machine.specs.declared.document.State.{State};
ghost use Rattle.alta_root.specs.Switches.{Switched};
ghost use Rattle.alta_rewrite.specs.Brings.{Brings, IsOpenedEither, Names};
ghost use Rattle.alta_rewrite.specs.Puts.{AreLaid, Fills, MayPut, Puts, Putting, Writes, ranges_before, ranges_in};

use crate::piece::Piece;
use alta_disk::{Disk, Failed};
use alta_journal::close_half;
use alta_layout::Slot;
use alta_root::{Root, switch};

/// Writes pieces into gaps beside what the root that counts names, and makes `root` the one that counts, in the slot that does
/// not count now. Nothing is pending at the start.
///
/// The bytes of a piece fill its extent, which meets no extent of the root that counts and no piece before it, and begins no
/// further than the disk and these reach. What `root` names lies inside the disk once the pieces are there, and its sequence
/// comes next.
///
/// Each piece is one write, and so is the first gate of the journal's half that `slot` uses, which is closed; then the root is
/// switched by at most three writes, each with its sync, of which the first makes all before it firm. At each moment every image
/// is opened as before, or as the new root says, and after `Ok` only the latter. It takes no memory, and reads one byte.
///
/// # Errors
///
/// `Failed` where a call of the disk failed. The images are then as at some moment before.
pub(crate) fn put_root<D: Disk>(
    disk: &mut D,
    slot: Slot,
    root: &Root,
    pieces: &[Piece<'_>],
) -> Result<(), Failed>
    requires settled { Only (D.state disk.old).content (D.state disk.old).images }
    requires follows { D.tells → MayPut slot root.now pieces.now (D.state disk.old).limit (D.state disk.old).content }
    requires fits { All (Fills (D.state disk.old).limit) pieces.now }
    requires limit { HEAD_BYTES ≤ (D.state disk.old).limit }

    ensures put { D.tells → OnOk result ((middle : List ℕ) × Puts slot pieces.now (D.state disk.old).content middle
        × Switched slot root.now middle (D.state disk.new).content) }

    // At each moment of the call.
    ensures syncs { Syncs 1 (Putting slot root.now pieces.now) (D.state disk.old) (D.state disk.new) result }

    // What an image is opened as then, and what it stands for.
    ensures opened { (o coming : Opened) → (D.tells → IsOpened o (D.state disk.old).content)
        → (D.tells → Names slot root.now pieces.now coming (D.state disk.old).content)
        → LeavesOnly (IsOpenedEither o coming) (D.state disk.old) (D.state disk.new) }
    ensures opened_then { (coming : Opened) → D.tells
        → Names slot root.now pieces.now coming (D.state disk.old).content
        → OnOk result (IsOpened coming (D.state disk.new).content) }
    ensures stands { (s t : State) → (coming : Opened) → (levels : List Level)
        → (D.tells → StandsFor s (D.state disk.old).content)
        → (D.tells → Brings slot root.now pieces.now coming levels t (D.state disk.old).content)
        → LeavesOnly (StandsForEither s t) (D.state disk.old) (D.state disk.new) }
    ensures stands_then { (t : State) → (coming : Opened) → (levels : List Level) → D.tells
        → Brings slot root.now pieces.now coming levels t (D.state disk.old).content
        → OnOk result (StandsFor t (D.state disk.new).content) }
    ensures held { (then : Holding) → (coming : Opened) → D.tells
        → Brings slot root.now pieces.now coming then.view.levels (state_of then.view) (D.state disk.old).content
        → then.view ≡ view_of coming then.view.levels → then.list ≡ coming.root.deletions
        → OnOk result (IsHeld then (D.state disk.new).content) }
{
    put(disk, slot, pieces)?;
    switch(disk, slot, root)
}

// Writes the pieces, and closes the gate.
fn put<D: Disk>(disk: &mut D, slot: Slot, pieces: &[Piece<'_>]) -> Result<(), Failed>
    requires whole { D.tells → HEAD_BYTES ≤ length (D.state disk.old).content }
    requires laid { D.tells → (taken : List Extent)
        × AreLaid taken (D.state disk.old).limit (length (D.state disk.old).content) [] pieces.now }
    requires fits { All (Fills (D.state disk.old).limit) pieces.now }
    requires limit { HEAD_BYTES ≤ (D.state disk.old).limit }
    ensures put { D.tells → OnOk result (Puts slot pieces.now (D.state disk.old).content (D.state disk.new).content) }
    ensures images { Passes (Touches (ranges_before slot pieces.now)) (D.state disk.old) (D.state disk.new) }
    ensures charges { Charges 0 (D.state disk.old) (D.state disk.new) result }
{
    write_pieces(disk, pieces)?;
    close_half(disk, slot)?;
    Ok(())
}

// Writes each piece at its extent.
fn write_pieces<D: Disk>(disk: &mut D, pieces: &[Piece<'_>]) -> Result<(), Failed>
    requires laid { D.tells → (taken : List Extent)
        × AreLaid taken (D.state disk.old).limit (length (D.state disk.old).content) [] pieces.now }
    requires fits { All (Fills (D.state disk.old).limit) pieces.now }
    ensures written { D.tells → OnOk result (Writes pieces.now (D.state disk.old).content (D.state disk.new).content) }
    ensures images { Passes (Touches (ranges_in pieces.now)) (D.state disk.old) (D.state disk.new) }
    ensures charges { Charges 0 (D.state disk.old) (D.state disk.new) result }
{
    for piece in pieces {
        disk.write(piece.extent.place, piece.bytes)?;
    }
    Ok(())
}
