// What the plans of an or of words and of a word in titles are. Each function is a law, and has nothing to run.
ghost use Rattle.std.specs.Prelude.{◌≡◌, ℕ, ◌↔◌, List, map, Contains, Some, true};
ghost use Rattle.alta_compile.specs.Conjoined.{is_either, either_words, titled_word};
ghost use Rattle.alta_compile.specs.Listing.{plan_list};
ghost use Rattle.alta_compile.specs.Space.{Placed, IsSpace, ends_of, list_of};
ghost use Rattle.alta_lead.specs.Followed.{IsFollowed};
ghost use Rattle.alta_lead.specs.Having.{HasAny};
ghost use Rattle.alta_machine.specs.Patterns.{title_end};
ghost use Rattle.alta_machine.specs.PlanOf.{plan_of};
ghost use Rattle.alta_machine.specs.Shape.{Shape};
ghost use Rattle.alta_machine.specs.declared.test.Test.{Test};

/// The plan of an or of words: in each space its list has the ends of exactly the documents that have one of the words.
pub fn an_or_finds_its_words()
    ensures { (space : List Placed) (q : Shape) (end : ℕ) → IsSpace space → is_either q ≡ true
        → Contains (plan_list space (plan_of q)) end
        ↔ HasAny (ends_of space) (map (list_of space) (either_words q)) end }
{}

/// The plan of a word in titles: in each space its list has the ends of exactly the documents that have the word before the end of
/// a title.
pub fn a_title_finds_its_word()
    ensures { (space : List Placed) (q : Shape) (word : Test) (end : ℕ) → IsSpace space → titled_word q ≡ Some word
        → Contains (plan_list space (plan_of q)) end
        ↔ IsFollowed (ends_of space) (list_of space word) (list_of space title_end) end }
{}
