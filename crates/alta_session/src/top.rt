// The top call.
ghost use Rattle.std.specs.Prelude.{◌≡◌, ◌≢◌, ◌↔◌, ◌^◌, ◌≤◌, [], ◌∷◌, ℕ, codes, IsTrue};
ghost use Rattle.alta_layout.specs.declared.places.TheConstants.{HEAD_BYTES};
ghost use Rattle.alta_codec.specs.Faults.{Rose};
ghost use Rattle.alta_disk.specs.Disk.{DiskState, Stands};
ghost use Rattle.alta_make.specs.Script.{script, report};
ghost use Rattle.alta_session.specs.Demo.{AsksDemo, Demonstrates};
ghost use Rattle.alta_session.specs.Ending.{KeepsDiskCounts};
ghost use Rattle.alta_session.specs.Outcomes.{Finishes, HasReason, MakesIndex, RefusesDisk};
ghost use Rattle.alta_session.specs.Run.{Serves};
ghost use Rattle.alta_session.specs.Status.{Completes};
ghost use Rattle.alta_root.specs.Slots.{HasNoRoot};
ghost use Rattle.alta_meaning.specs.Holding.{IsHeld};
ghost use Rattle.alta_meaning.specs.Switching.{empty_held};

use crate::demo::{demo, demo_size};
use crate::{Status, serve};
use alta_codec::Text;
use alta_console::Console;
use alta_disk::Disk;
use alta_store::{has_index, make_index};
use std::alloc::Global;

// The most bytes of input that a run reads.
const INPUT_LIMIT: u64 = 1 << 40;

// How many bytes the smallest index takes.
const INDEX_SIZE: u64 = 2_105_344;

/// Does what the words of the command line ask: `init` makes an index without documents, `run` opens the index and
/// answers the command lines of the console, as [`serve`] with an input limit of 2 to the 40th. `demo` and a number N from
/// 1 to 100,000 make an index, answer the lines of a generated run over N documents on it, and then those of a report,
/// whose replies alone are given. For every other list of words it answers `Usage` and calls nothing.
///
/// `init` ends with `Done` where the index was made, `Exists` where there is one already, `Full` where the disk is too
/// small for one, and `DiskFault` where a call of the disk failed. After `Exists` and `Full` the disk holds what it held.
/// It takes and gives nothing.
///
/// `demo` takes nothing. It ends as `init` where no index is made, and then as a run: with `Done` where all replies to the
/// report were given, `Memory`, `DiskFault` or `GiveFault`, or `Full` where the work of a line finds no place.
pub fn alta<C: Console, D: Disk>(
    alloc: Global,
    words: &[Text],
    console: &mut C,
    disk: &mut D,
) -> Status
    ensures usage { result ≡ Status.Usage → (words.now ≢ codes "init" ∷ []) × (words.now ≢ codes "run" ∷ [])
        × ((n : ℕ) → AsksDemo words.now n → ⊥) }
    ensures no_call { words.now ≢ codes "init" ∷ [] → words.now ≢ codes "run" ∷ []
        → ((n : ℕ) → AsksDemo words.now n → ⊥)
        → (result ≡ Status.Usage) × (console.new ≡ console.old) × (disk.new ≡ disk.old) }

    ensures init { words.now ≡ codes "init" ∷ [] → MakesIndex D.tells (D.state disk.old) (D.state disk.new) result
        × (console.new ≡ console.old) }

    ensures run { words.now ≡ codes "run" ∷ []
        → Serves D.tells (2 ^ 40) (C.told console.old) (C.told console.new) (C.left console.old) (C.left console.new)
        (D.state disk.old) (D.state disk.new) result }
    ensures finishes { words.now ≡ codes "run" ∷ []
        → Finishes D.tells C.left C.take_faults C.give_faults console.old console.new (D.state disk.old)
        (D.state disk.new) result }
    ensures refuses { words.now ≡ codes "run" ∷ []
        → RefusesDisk D.tells console.old console.new (D.state disk.old) (D.state disk.new) result }

    ensures demo { (n : ℕ) → AsksDemo words.now n
        → Demonstrates D.tells (script n) report (C.told console.old) (C.told console.new) (D.state disk.old)
        (D.state disk.new) result × (C.left console.new ≡ C.left console.old) }
    ensures shown { (n : ℕ) → AsksDemo words.now n → D.tells → HasNoRoot (D.state disk.old).content
        → HEAD_BYTES ≤ (D.state disk.old).limit → ¬ (Rose (C.give_faults console.old) (C.give_faults console.new))
        → ¬ (Rose (D.state disk.old).faults (D.state disk.new).faults) → Completes result }

    ensures reason { HasReason D.tells C.take_faults C.give_faults console.old console.new (D.state disk.old)
        (D.state disk.new) result }
{
    if is_word(words, "init") {
        return init(disk);
    }
    if is_word(words, "run") {
        return serve(alloc, console, disk, INPUT_LIMIT);
    }
    match demo_size(words) {
        Some(n) => demo(alloc, n, console, disk),
        None => Status::Usage,
    }
}

// Whether there is one word, and it is this one.
fn is_word(words: &[Text], word: &str) -> bool
    ensures { IsTrue result ↔ (words.now ≡ word.now ∷ []) }
{
    match words {
        [only] => only.as_str() == word,
        _ => false,
    }
}

// Makes an index without documents.
pub(crate) fn init<D: Disk>(disk: &mut D) -> Status
    ensures makes { MakesIndex D.tells (D.state disk.old) (D.state disk.new) result }
    ensures holds { result ≡ Status.Done → Stands D.tells (D.state disk.new) (IsHeld empty_held) }
    ensures disk_fault { result ≡ Status.DiskFault → Rose (D.state disk.old).faults (D.state disk.new).faults }
    ensures counts { KeepsDiskCounts (D.state disk.old) (D.state disk.new) }
{
    match has_index(disk) {
        Ok(true) => return Status::Exists,
        Ok(false) => {}
        Err(_) => return Status::DiskFault,
    }
    let limit = disk.limit();
    if limit < INDEX_SIZE {
        return Status::Full {
            need: INDEX_SIZE,
            gap: limit,
        };
    }
    match make_index(disk) {
        Ok(()) => Status::Done,
        Err(_) => Status::DiskFault,
    }
}
