// What the definitions promise by themselves. Each function is a law, and has nothing to run.
ghost use Rattle.std.specs.Prelude.{◌≡◌, ◌↔◌, ℕ, ◌+◌, ◌-◌, ◌<◌, ◌≤◌, true, List, length};
ghost use Rattle.std.specs.List.Sorted.{IsPermutation, IsSorted};
ghost use Rattle.alta_machine.specs.Matches.{IsWellFormed, Matches};
ghost use Rattle.alta_machine.specs.Patterns.{title_end};
ghost use Rattle.alta_machine.specs.Shape.{Shape};
ghost use Rattle.alta_machine.specs.Scores.{score_of};
ghost use Rattle.alta_rank.specs.AnyUse.{asks_any_use};
ghost use Rattle.alta_rank.specs.Locations.{range_score, IsListIn, AreListsIn};
ghost use Rattle.alta_machine.specs.Ranked.{by_rank, ranked};
ghost use Rattle.alta_machine.specs.Uses.{uses_of};
ghost use Rattle.alta_machine.specs.declared.scored.Scored.{Scored};
ghost use Rattle.alta_machine.specs.declared.usage.Use.{Use};

/// The score of a document's range is the score of its cells: where the document begins at `first`, and in its range the
/// list of each use has the locations of the cells that meet its test, and `titles` those of the cells where titles end.
pub fn a_score_is_of_the_cells()
    ensures { (first : ℕ) (cells : List (List (List ℕ))) (uses : List Use) (lists : List (List ℕ)) (titles : List ℕ)
        → 0 < length cells → AreListsIn first cells uses lists → IsListIn first cells title_end titles
        → range_score uses lists titles first (first + length cells - 1) ≡ score_of uses cells }
{}

/// Where a query asks for one of its uses, exactly the documents that match it have a score.
pub fn a_score_is_of_an_answer()
    ensures { (q : Shape) (cells : List (List (List ℕ))) → asks_any_use q ≡ true
        → Matches cells q ↔ (0 < score_of (uses_of q) cells) }
{}

/// The answers in their order are the same answers, and none comes before the one in front of it.
pub fn a_ranking_is_sorted()
    ensures same { (list : List Scored) → IsPermutation list (ranked list) }
    ensures sorted { (list : List Scored) → IsSorted by_rank (ranked list) }
{}

/// A query that was read has at most 64 uses.
pub fn a_query_has_few_uses()
    ensures { (q : Shape) → IsWellFormed q → length (uses_of q) ≤ 64 }
{}
