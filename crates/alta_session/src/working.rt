// Work on levels that a line asks for.
ghost use Rattle.std.specs.Prelude.{◌≡◌, ◌≤◌, true, Ok};
ghost use Rattle.alta_disk.specs.Disk.{DiskState};
ghost use Rattle.alta_layout.specs.declared.places.TheConstants.{HEAD_BYTES};
ghost use Rattle.alta_session.specs.Joining.{IsIdle};
ghost use Rattle.alta_session.specs.Working.{work_command, work_task};
ghost use Rattle.alta_store.specs.Agreement.{Agrees, is_sound};
ghost use Rattle.alta_store.specs.Calls.{NoRefusal, Obeys};

use alta_disk::Disk;
use alta_store::{Store, StoreFault};

/// What a line asks of the levels.
#[derive(Clone, Copy)]
pub(crate) enum LevelWork {
    /// To make the newest documents one.
    Flush,
    /// To join all, and the newest documents, to one.
    Merge,
    /// To move the join of the two oldest on by so many terms.
    Step(u64),
}

/// Does this work.
pub(crate) fn do_work<D: Disk>(
    store: &mut Store,
    disk: &mut D,
    work: LevelWork,
) -> Result<(), StoreFault>
    requires sound { is_sound store.old ≡ true }
    requires agrees { Agrees D.tells (D.state disk.old) store.old }
    requires limit { HEAD_BYTES ≤ (D.state disk.old).limit }
    ensures obeys { Obeys D.tells (work_task work) (λ s. s) NoRefusal (D.state disk.old) (D.state disk.new)
        store.old store.new result }
    ensures idle { IsIdle store.old (work_command work) → (result ≡ Ok tt) × (disk.new ≡ disk.old) }
{
    match work {
        LevelWork::Flush => store.flush(disk),
        LevelWork::Merge => store.merge(disk),
        LevelWork::Step(n) => store.step(disk, n),
    }
}
