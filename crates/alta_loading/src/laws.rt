// Laws of lists that are loaded.
ghost use Rattle.std.specs.Prelude.{ℕ, ◌++◌, List, All, flat_map, map};
ghost use Rattle.alta_machine.specs.PlanOf.{plan_of};
ghost use Rattle.alta_content.specs.declared.content.Content.{Content};
ghost use Rattle.alta_disk.specs.Parts.{part};
ghost use Rattle.alta_meaning.specs.Levels.{Level, documents_of};
ghost use Rattle.alta_meaning.specs.Opened.{bytes_at};
ghost use Rattle.alta_meaning.specs.Ordered.{RowsPrecede};
ghost use Rattle.alta_meaning.specs.Standing.{tables_by};
ghost use Rattle.alta_level.specs.Segments.{IsSegment, rows_of};
ghost use Rattle.alta_loading.specs.Contents.{AreListsAmong, AreListsIn};
ghost use Rattle.alta_loading.specs.Loads.{load_in, loads_from};
ghost use Rattle.alta_loading.specs.Snapshots.{all_rows, loaded_view};
ghost use Rattle.alta_memlevel.specs.Added as mem;
ghost use Rattle.alta_memlevel.specs.Documents.{HasDocuments};
ghost use Rattle.alta_machine.specs.declared.document.Document.{Document};
ghost use Rattle.alta_machine.specs.Deciding.{answers};
ghost use Rattle.alta_machine.specs.Shape.{Shape};
ghost use Rattle.alta_machine.specs.declared.test.Test.{Test};
ghost use Rattle.alta_search.specs.Documents.{AreToCome};
ghost use Rattle.alta_search.specs.Shown.{ShowsDocuments};
ghost use Rattle.alta_search.specs.Tops.{AreToRank};

use alta_model::a_match_is_decided;
use alta_search::answers_match;

/// In levels whose bytes are the segments of contents, no list has a fault, and what is loaded of a term is its lists in
/// the contents, the oldest level first. The function is a law, and has nothing to run.
pub fn loaded_lists_are_those_of_the_content()
    ensures level { (content : Content) → (place bytes number : ℕ) → (image term : List ℕ)
        → IsSegment (part place bytes image) content
        → AreListsIn content image term (load_in number
        (record { place = place; documents = content.documents; terms = rows_of content.lists }) term) }
    ensures levels { (levels : List Level) → (image term : List ℕ)
        → All (λ level. IsSegment (bytes_at level.extent image) level.content) levels
        → AreListsAmong levels image term (loads_from 0 (map tables_by levels) term) }
{}

/// Over levels whose bytes are the segments of contents, and the newest documents behind them, the answers to come of the plan of a
/// query are the documents of both that match the query and are not deleted, in order, whatever the tests whose lists were loaded.
/// The function is a law, and has nothing to run.
pub fn levels_and_newest_documents_answer()
    ensures { (levels : List Level) (image gone : List ℕ) (documents : List Document) (newest : mem.LevelView)
        (tests : List Test) (q : Shape)
        → All (λ level. IsSegment (bytes_at level.extent image) level.content) levels
        → HasDocuments gone documents newest → RowsPrecede (all_rows (map tables_by levels) newest.content)
        → AreToCome (plan_of q) (loaded_view (map tables_by levels) newest.content image tests gone) 0
        (answers (flat_map (documents_of gone) levels ++ documents) q) }
{
    answers_match();
    a_match_is_decided();
}

/// The same answers with their cells, by which they are ranked. The function is a law, and has nothing to run.
pub fn levels_and_newest_documents_are_ranked()
    ensures { (levels : List Level) (image gone : List ℕ) (documents : List Document) (newest : mem.LevelView)
        (tests : List Test) (q : Shape)
        → All (λ level. IsSegment (bytes_at level.extent image) level.content) levels
        → HasDocuments gone documents newest → RowsPrecede (all_rows (map tables_by levels) newest.content)
        → AreToRank (plan_of q) (loaded_view (map tables_by levels) newest.content image tests gone)
        (answers (flat_map (documents_of gone) levels ++ documents) q) }
{
    answers_match();
    a_match_is_decided();
}

/// Over levels whose bytes are the segments of contents, and the newest documents behind them, what is loaded of any tests shows the
/// documents of both that are not deleted. The function is a law, and has nothing to run.
pub fn levels_and_newest_documents_are_shown()
    ensures { (levels : List Level) (image gone : List ℕ) (documents : List Document)
        (newest : mem.LevelView) (tests : List Test)
        → All (λ level. IsSegment (bytes_at level.extent image) level.content) levels
        → HasDocuments gone documents newest → RowsPrecede (all_rows (map tables_by levels) newest.content)
        → ShowsDocuments (loaded_view (map tables_by levels) newest.content image tests gone)
        (flat_map (documents_of gone) levels ++ documents) }
{}
