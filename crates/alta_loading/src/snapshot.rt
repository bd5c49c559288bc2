// The snapshot of levels and of the newest documents.
ghost use Rattle.std.specs.Prelude.{◌≡◌, ◌⊎◌, ◌↔◌, ◌∷◌, ◌++◌, ℕ, List, flat_map, map, All, Contains, Err, IfOk, IsTrue, OnOk};
ghost use Rattle.alta_codec.specs.Rising.{IsRising};
ghost use Rattle.alta_machine.specs.PlanOf.{plan_of};
ghost use Rattle.alta_compile.specs.Space.{document_end};
ghost use Rattle.alta_disk.specs.Disk.{DiskState};
ghost use Rattle.alta_meaning.specs.Levels.{Level, documents_of};
ghost use Rattle.alta_meaning.specs.Opened.{bytes_at};
ghost use Rattle.alta_meaning.specs.Ordered.{RowsPrecede};
ghost use Rattle.alta_meaning.specs.Standing.{tables_by};
ghost use Rattle.alta_level.specs.Segments.{IsSegment};
ghost use Rattle.alta_disk.specs.Answers.{IfDamaged};
ghost use Rattle.alta_loading.specs.Lists.{LiesWithin};
ghost use Rattle.alta_loading.specs.Loads.{ReadsLists};
ghost use Rattle.alta_loading.specs.Met.{each_once, loads_of_tests};
ghost use Rattle.alta_loading.specs.Snapshots.{all_rows, loaded_view};
ghost use Rattle.alta_loading.specs.Kept.{AreKept};
ghost use Rattle.alta_memlevel.specs.Documents.{HasDocuments};
ghost use Rattle.alta_machine.specs.declared.document.Document.{Document};
ghost use Rattle.alta_machine.specs.Deciding.{answers};
ghost use Rattle.alta_machine.specs.Shape.{Shape};
ghost use Rattle.alta_machine.specs.declared.test.Test.{Test};
ghost use Rattle.alta_search.specs.Documents.{AreToCome};
ghost use Rattle.alta_search.specs.Newest.{HasAdded};
ghost use Rattle.alta_search.specs.Order.{used};
ghost use Rattle.alta_search.specs.Shown.{ShowsDocuments};
ghost use Rattle.alta_search.specs.Tops.{AreToRank};

use crate::kept::{Ends, KeptLists};
use crate::laws::{
    levels_and_newest_documents_answer, levels_and_newest_documents_are_ranked,
    levels_and_newest_documents_are_shown,
};
use crate::loading::load_tests;
use alta_codec::Loc;
use alta_content::AllRows;
use alta_disk::{Disk, LoadFault};
use alta_level::is_end_term;
use alta_machine::Test;
use alta_memlevel::MemLevel;
use alta_search::{Loading, Snapshot};
use alta_table::OpenLevel;
use std::alloc::Global;

/// Loads the lists of the tests of an order, of each test those of the terms that meet it, from the levels, the oldest first, and
/// from the newest documents; with the rows of all documents, and a copy of the deleted ends. Each test is loaded once, however many
/// uses it has. What `kept` knows of the lists of these levels is not read. It knows afterwards the longer lists that were read, as far as
/// it has room, and that the lists of all ends were tested, where the first test is theirs and all was loaded.
///
/// # Errors
///
/// `Damaged` exactly where one of the lists has a fault, at the first fault of the first list that has one, in the order of loading.
/// `Disk` where a read failed. `Memory` where there was no memory for the lists.
pub fn load_ordered<D: Disk>(
    alloc: Global,
    disk: &mut D,
    order: Loading,
    levels: &[OpenLevel],
    kept: &mut KeptLists,
    newest: &MemLevel,
    rows: AllRows,
    gone: &[Loc],
) -> Result<Snapshot, LoadFault>
    requires within { D.tells → All (λ level. LiesWithin level (D.state disk.old).content) levels.now }
    requires known { AreKept D.tells (D.state disk.old).content levels.now kept.old }
    requires newest { HasAdded newest.now }
    requires rise { RowsPrecede (all_rows levels.now newest.now.content) }
    requires rows { rows ≡ all_rows levels.now newest.now.content }
    requires gone { IsRising gone.now }
    ensures tests { IfOk result (λ snapshot. snapshot.tests ≡ used order) }
    ensures view { D.tells → IfOk result (λ snapshot. snapshot
        ≡ loaded_view levels.now newest.now.content (D.state disk.old).content (used order) gone.now) }
    // Levels that are the segments of contents are never damaged.
    ensures undamaged { D.tells → (contents : List Level) → levels.now ≡ map tables_by contents
        → All (λ level. IsSegment (bytes_at level.extent (D.state disk.old).content) level.content) contents
        → IfDamaged result (λ place. ⊥) }
    // Over them the answers of any query are the documents of the levels and the newest ones that match and are not deleted,
    ensures answers { D.tells → IfOk result (λ snapshot. (contents : List Level) → (behind : List Document)
        → (q : Shape) → levels.now ≡ map tables_by contents
        → All (λ level. IsSegment (bytes_at level.extent (D.state disk.old).content) level.content) contents
        → HasDocuments gone.now behind newest.now
        → AreToCome (plan_of q) snapshot 0 (answers (flat_map (documents_of gone.now) contents ++ behind) q)) }
    // also where they are ranked.
    ensures ranked { D.tells → IfOk result (λ snapshot. (contents : List Level) → (behind : List Document)
        → (q : Shape) → levels.now ≡ map tables_by contents
        → All (λ level. IsSegment (bytes_at level.extent (D.state disk.old).content) level.content) contents
        → HasDocuments gone.now behind newest.now
        → AreToRank (plan_of q) snapshot (answers (flat_map (documents_of gone.now) contents ++ behind) q)) }
    // The snapshot shows these documents with the terms of their cells.
    ensures shown { D.tells → IfOk result (λ snapshot. (contents : List Level) → (behind : List Document)
        → levels.now ≡ map tables_by contents
        → All (λ level. IsSegment (bytes_at level.extent (D.state disk.old).content) level.content) contents
        → HasDocuments gone.now behind newest.now
        → ShowsDocuments snapshot (flat_map (documents_of gone.now) contents ++ behind)) }
    ensures known { AreKept D.tells (D.state disk.old).content levels.now kept.new }
    ensures tested { (more : List Test) → used order ≡ document_end ∷ more → OnOk result (kept.new.ends ≡ Ends.Tested) }
    ensures loads { ReadsLists D.tells (loads_of_tests levels.now newest.now.content (each_once (used order)))
        (D.state disk.old) (D.state disk.new) result }
{
    levels_and_newest_documents_answer();
    levels_and_newest_documents_are_ranked();
    levels_and_newest_documents_are_shown();
    let (tests, uses) = order.into_parts();
    let mark = marked(kept.ends, tests.as_slice());
    match load_tests(alloc, disk, levels, kept, newest, tests.into_vec()) {
        Ok(tests) => {
            let gone = Vec::from_slice(alloc, gone)?;
            kept.ends = mark;
            Ok(Snapshot::new(tests, uses, rows, gone))
        }
        Err(fault) => Err(fault),
    }
}

// The mark once the lists of these tests were loaded: where the first is that of document ends, the lists of all ends were tested.
fn marked(ends: Ends, tests: &[Test]) -> Ends
    ensures tested { (more : List Test) → tests.now ≡ document_end ∷ more → result ≡ Ends.Tested }
    ensures only { (result ≡ ends) ⊎ ((result ≡ Ends.Tested) × Contains tests.now document_end) }
{
    match tests {
        [first, ..] if is_end_test(first) => Ends::Tested,
        _ => ends,
    }
}

// Whether the test is that of document ends.
fn is_end_test(test: &Test) -> bool
    ensures { IsTrue result ↔ (test.now ≡ document_end) }
{
    match test {
        Test::Is(term) => is_end_term(term.as_slice()),
        Test::Begins(_start) => false,
    }
}
