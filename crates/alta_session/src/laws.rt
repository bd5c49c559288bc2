// What follows from definitions and contracts alone. Each function is empty but for the laws that it takes: its contract is the law.
ghost use Rattle.std.specs.Prelude.{◌≡◌, ℕ, List, length, map, All};
ghost use Rattle.alta_console.specs.Transcript.{given_in, lines_in};
ghost use Rattle.alta_disk.specs.Disk.{DiskState, Each, Stands};
ghost use Rattle.alta_dump.specs.Asked.{AsksForFoldings};
ghost use Rattle.alta_machine.specs.Dumps.{restored};
ghost use Rattle.alta_dump.specs.Laws.{AnswersAlike};
ghost use Rattle.alta_dump.specs.Names.{HasItsName};
ghost use Rattle.alta_meaning.specs.Holding.{Holding};
ghost use Rattle.alta_meaning.specs.Opened.{Opened, IsOpened};
ghost use Rattle.alta_meaning.specs.Standing.{StandsFor};
ghost use Rattle.alta_meaning.specs.Views.{state_of};
ghost use Rattle.alta_machine.specs.States.{empty_state, IsState};
ghost use Rattle.alta_machine.specs.declared.document.State.{State};
ghost use Rattle.alta_machine.specs.Deciding.{answers};
ghost use Rattle.alta_machine.specs.Matches.{IsWellFormed};
ghost use Rattle.alta_machine.specs.Shape.{Shape};
ghost use Rattle.alta_machine.specs.Searching.{told, AnswerRow};
ghost use Rattle.alta_session.specs.Found.{AreFound};
ghost use Rattle.alta_session.specs.Kept.{HoldsAnswered};
ghost use Rattle.alta_session.specs.Progress.{SpeaksAfter};
ghost use Rattle.alta_session.specs.Run.{Serves};
ghost use Rattle.alta_session.specs.Spending.{MayChange};
ghost use Rattle.alta_session.specs.Tasks.{IsFirst};
ghost use Rattle.alta_session.specs.declared.status.Status.{Status};
ghost use Rattle.alta_machine.specs.Machine.{Machine, machine_after, started_at, step};
ghost use Rattle.alta_session.specs.Restoring.{AreAddLines};
ghost use Rattle.alta_store.specs.Agreement.{Agrees, MaySpeakOf};

use alta_console::Console;
use alta_disk::Disk;
use alta_dump::laws::the_lines_of_a_dump_answer_again;
use alta_loading::levels_and_newest_documents_answer;
use alta_store::{Store, a_search_sees_the_state};

/// What was answered is kept: where all that a stop may leave on the disk stands for one state as a run begins, each image that a stop
/// may leave afterwards stands for the state after some of the lines taken, in order from the first, and each line whose reply was
/// given whole is among them.
pub fn what_was_answered_is_kept<C: Console, D: Disk>()
    ensures { (console console_now : C) (disk disk_now : D) (limit : ℕ) (status : Status) (s : State)
        → Stands D.tells (D.state disk) (StandsFor s)
        → (serves : Serves D.tells limit (C.told console) (C.told console_now) (C.left console) (C.left
        console_now) (D.state disk) (D.state disk_now) status)
        → Each (D.state disk_now).images (HoldsAnswered StandsFor (started_at s) (lines_in limit serves.run)
        (given_in serves.run)) }
{}

/// What was answered as stored is there in a damaged archive too, which takes changes until a join reads a broken list. Where all that a
/// stop may leave on the disk may speak of one state as a run begins, whatever lists are broken, each image that a stop may leave
/// afterwards may speak of the documents after some of the lines taken, in order from the first: after each line whose reply was given
/// whole, or after one line more. Where each of the lines may change the index, as an add or a delete, these are the lines whose replies
/// begin what was given.
pub fn what_was_answered_is_kept_beside_damage<C: Console, D: Disk>()
    ensures replied { (console console_now : C) (disk disk_now : D) (limit : ℕ) (status : Status) (s : State)
        → Stands D.tells (D.state disk) (MaySpeakOf s)
        → (serves : Serves D.tells limit (C.told console) (C.told console_now) (C.left console) (C.left
        console_now) (D.state disk) (D.state disk_now) status)
        → Each (D.state disk_now).images (SpeaksAfter (length serves.replied.gives.texts) (started_at s)
        (lines_in limit serves.run)) }
    ensures changed { (console console_now : C) (disk disk_now : D) (limit : ℕ) (status : Status) (s : State)
        → Stands D.tells (D.state disk) (MaySpeakOf s)
        → (serves : Serves D.tells limit (C.told console) (C.told console_now) (C.left console) (C.left
        console_now) (D.state disk) (D.state disk_now) status) → All MayChange (lines_in limit serves.run)
        → Each (D.state disk_now).images (HoldsAnswered MaySpeakOf (started_at s) (lines_in limit serves.run)
        (given_in serves.run)) }
{}

/// Each image that is opened may speak of a state, whatever its lists are, and each that stands for a state may speak of it. The promise
/// before speaks of such images.
pub fn what_is_opened_may_speak()
    ensures opened { (o : Opened) (image : List ℕ) → IsOpened o image → (s : State) × MaySpeakOf s image }
    ensures stands { (s : State) (image : List ℕ) → StandsFor s image → MaySpeakOf s image }
{}

/// What an image that stands for a state has, as a run has it that begins there: levels, extents, deleted ends and entries, and no join
/// goes on. Each promise about what is held at the start of a run speaks of it.
pub fn what_stands_is_held()
    ensures { (s : State) (image : List ℕ) → StandsFor s image → (held : Holding) × IsFirst image held
        × (state_of held.view ≡ s) }
{}

/// A line leaves a well-formed state well formed: the numbers of its documents rise, from 1 to below the next number, and no
/// two documents have the same name.
pub fn a_line_keeps_a_state()
    ensures { (m : Machine) → (line : List ℕ) → IsState m.state → IsState (step m line).0.state }
{}

/// Where a store agrees with its disk, and the disk stands for a state, a search over both answers the live documents of the state that
/// match the query, in order. A search is `Store::sources`, `alta_loading::load_ordered` over what it gives, in the order of the query's
/// plan, and `alta_search::search` over the snapshot.
pub fn a_search_answers_what_matches<D: Disk>()
    ensures { (disk : D) (store : Store) (s : State) (q : Shape) (found : List AnswerRow) → D.tells
        → Agrees D.tells (D.state disk) store → StandsFor s (D.state disk).content
        → AreFound store (D.state disk).content q found → found ≡ map told (answers s.documents q) }
{
    a_search_sees_the_state::<D>();
    levels_and_newest_documents_answer();
}

/// The add lines of a dump that skips no document make, where no document was added yet, the documents again, numbered from 1 on;
/// and where each document has its own name as its only one, as each that was added has, this state answers a query for folded
/// words by documents of the same names as the state that was dumped, in the same order.
pub fn the_lines_of_a_dump_restore()
    ensures state { (s : State) (lines : List (List ℕ)) → AreAddLines s.documents lines
        → machine_after (started_at empty_state) lines ≡ started_at (restored s.documents) }
    ensures answers { (s : State) (lines : List (List ℕ)) (q : Shape) → AreAddLines s.documents lines
        → All HasItsName s.documents → IsWellFormed q → AsksForFoldings q
        → AnswersAlike s (machine_after (started_at empty_state) lines).state q }
{
    the_lines_of_a_dump_answer_again();
}
