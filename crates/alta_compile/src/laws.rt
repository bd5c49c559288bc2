// What the plan of a query finds. Each function is a law, and has nothing to run.
ghost use Rattle.std.specs.Prelude.{◌≡◌, ◌↔◌, ℕ, List, [], ◌∷◌, ◌++◌, ◌^◌, ◌<◌, map, codes, All, Any, Contains};
ghost use Rattle.std.specs.Fmt.{decimal};
ghost use Rattle.std.specs.Str.{IsUtf8};
ghost use Rattle.alta_codec.specs.Rising.{IsRising};
ghost use Rattle.alta_compound.specs.Union.{union_of};
ghost use Rattle.alta_docread.specs.Kept.{common};
ghost use Rattle.alta_machine.specs.Matches.{IsWellFormed, Matches};
ghost use Rattle.alta_machine.specs.Patterns.{Satisfies, pattern_of, range_test};
ghost use Rattle.alta_machine.specs.Cells.{cells_of};
ghost use Rattle.alta_machine.specs.Shape.{Atom, Shape, value, lone, atom};
ghost use Rattle.alta_query.specs.Values.{HasNumber};
ghost use Rattle.alta_query.specs.Texts.{HasTextTerms};
ghost use Rattle.alta_machine.specs.Covers.{IsRange};
ghost use Rattle.alta_machine.specs.declared.range.Range.{Range};
ghost use Rattle.alta_machine.specs.Explained.{explained, test_text};
ghost use Rattle.alta_machine.specs.Joined.{joint_pattern, SatisfiesEach};
ghost use Rattle.alta_machine.specs.PlanOf.{found_of, plan_of};
ghost use Rattle.alta_compile.specs.Space.{Placed, IsSpace, end_of, ends_of};
ghost use Rattle.alta_machine.specs.Plans.{Tree, found, without};
ghost use Rattle.alta_compile.specs.Listing.{plan_list};
ghost use Rattle.alta_compile.specs.Whole.{IsWhole};

/// One atom: a document's end is in the list of its bounds exactly where the document satisfies the atom's pattern. The
/// two bounds of each variable place all of them in one document.
pub fn one_atom()
    ensures { (space : List Placed) (d : Placed) (a : Atom) → IsSpace space → Contains space d
        → Contains (plan_list space (found (found_of (pattern_of a)))) (end_of d) ↔ Satisfies d.cells (pattern_of a) }
{}

/// A list of atoms: the bounds of all of them together find exactly the documents that satisfy each.
pub fn atoms_as_one()
    ensures { (space : List Placed) (d : Placed) (atoms : List Atom) → IsSpace space → Contains space d
        → Contains (plan_list space (found (found_of (joint_pattern (map pattern_of atoms))))) (end_of d)
        ↔ SatisfiesEach d.cells (map pattern_of atoms) }
{}

/// An AllOf has what all its parts have.
pub fn all_parts()
    ensures { (list : List ℕ) (lists : List (List ℕ)) (e : ℕ) → Contains (common (list ∷ lists)) e
        ↔ All (λ l. Contains l e) (list ∷ lists) }
{}

/// An AnyOf has what some of its parts has.
pub fn some_part()
    ensures { (lists : List (List ℕ)) (e : ℕ) → Contains (union_of lists) e ↔ Any (λ l. Contains l e) lists }
{}

/// A Without has the end of each document that its part has not.
pub fn not_the_part()
    ensures { (space : List Placed) (d : Placed) (t : Tree) → IsSpace space → Contains space d
        → Contains (plan_list space (without t)) (end_of d) ↔ (Contains (plan_list space t) (end_of d) → ⊥) }
{}

/// The whole tree: in each space the end of a document is in the list of the plan of a query exactly where the query
/// matches the document.
pub fn finds_what_matches()
    ensures { (space : List Placed) (d : Placed) (q : Shape) → IsSpace space → Contains space d
        → Contains (plan_list space (plan_of q)) (end_of d) ↔ Matches d.cells q }
{}

/// Numbers: in each space the end of a document whose cells a name, a title and a body make is in the list of the plan of a value
/// exactly where a word of title or body is a number from the value's first to its last.
pub fn a_plan_finds_numbers()
    ensures { (space : List Placed) (d : Placed) (name title body : List ℕ) (low high : ℕ)
        → IsSpace space → Contains space d
        → d.cells ≡ cells_of name title body → IsUtf8 title → IsUtf8 body → high < 2 ^ 32
        → Contains (plan_list space (plan_of (atom (lone (value low high))))) (end_of d)
        ↔ HasNumber low high title body }
{}

/// The plan of a query whose terms are UTF-8, but for those of its values' ranges, in words, is UTF-8. So are the terms of each
/// query that was read.
pub fn a_plan_is_text()
    ensures { (q : Shape) → HasTextTerms q → IsUtf8 (explained [] (plan_of q)) }
{}

/// In words, a range of numbers is its level and its prefix.
pub fn a_range_is_shown()
    ensures { (r : Range) → IsRange r → test_text (range_test r) ≡ codes "#" ++ decimal r.level ++ codes ":"
        ++ decimal r.prefix }
{}

/// A plan's list rises, and holds ends of documents alone.
pub fn a_plan_lists_ends()
    ensures rises { (space : List Placed) (t : Tree) → IsSpace space → IsRising (plan_list space t) }
    ensures ends { (space : List Placed) (t : Tree) (e : ℕ) → IsSpace space → Contains (plan_list space t) e
        → Contains (ends_of space) e }
{}

/// The plan of a query that some text is read as has a part in each AllOf and each AnyOf.
pub fn a_plan_is_whole()
    ensures { (q : Shape) → IsWellFormed q → IsWhole (plan_of q) }
{}
