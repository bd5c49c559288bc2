// How many documents an Or of words finds, or a word in titles, over a snapshot of the tests of the plan.
ghost use Rattle.std.specs.Prelude.{◌≡◌, ◌+◌, ◌<◌, ◌≤◌, List, [], ◌∷◌, map, length, slice_index, slice_index_or, All, IfOk, IsTrue};
ghost use Rattle.alta_codec.specs.Rising.{IsRising};
ghost use Rattle.alta_compile.specs.Space.{Placed, document_end, ends_of, list_of};
ghost use Rattle.alta_lead.specs.Followed.{ends_followed};
ghost use Rattle.alta_lead.specs.Having.{ends_with_any};
ghost use Rattle.alta_machine.specs.Patterns.{title_end};
ghost use Rattle.alta_machine.specs.declared.test.Test.{Test};
ghost use Rattle.alta_counts.specs.Live.{count_live};
ghost use Rattle.alta_counts.specs.Asked.{ends_asked};
ghost use Rattle.alta_counts.specs.Either.{either_tests, seconds};
ghost use Rattle.alta_search.specs.Lists.{test_list, lists_at, IsCut};
ghost use Rattle.alta_search.specs.Met.{IsExact, IsSingle};
ghost use Rattle.alta_search.specs.Plans.{lists, locations};
ghost use Rattle.alta_search.specs.View.{Shows};
ghost use Rattle.alta_search.specs.Walked.{WalksOver};

use crate::by_level::count_levels;
use crate::walk::Asking;
use alta_codec::{Loc, Steps};
use alta_search::{Section, TestLists};
use std::alloc::{AllocError, Global};
use std::sync::ledger::Ledger;

/// How many words are walked over together at most: each of them is asked where the next document begins.
const WORDS: usize = 8;

/// How many documents have the first of two words before the second, or one of the words, and were not deleted, by the indexes of the
/// test of document ends and of the words. It adds at most a step a list and one a location.
fn asked_lists<L: Ledger>(
    alloc: Global,
    followed: bool,
    tests: &[TestLists],
    ends: usize,
    words: &[usize],
    gone: &[Loc],
    steps: &mut Steps<L>,
) -> Result<u64, AllocError>
    requires pair { IsTrue followed → length words.now ≡ 2 }
    requires cut { All IsCut (map (lists_at tests.now) (ends ∷ words.now)) }
    requires single { All IsSingle (map (lists_at tests.now) (ends ∷ words.now)) }
    requires gone { IsRising gone.now }
    ensures count { IfOk result (λ n. n ≡ count_live
        (ends_asked followed (test_list (lists_at tests.now ends))
        (map test_list (map (lists_at tests.now) words.now))) gone.now 0) }
    ensures most { steps.new ≤ steps.old + locations (map (lists_at tests.now) (ends ∷ words.now))
        + lists (map (lists_at tests.now) (ends ∷ words.now)) }
{
    let live = count_levels(
        alloc,
        tests,
        Asking::Walked(followed),
        ends,
        words,
        &[],
        gone,
        steps,
    )?;
    Ok(live)
}

/// Every second of these indexes.
fn every_second(alloc: Global, uses: &[usize]) -> Result<Vec<usize>, AllocError>
    ensures { IfOk result (λ all. all.items ≡ seconds uses.now) }
{
    let mut all = Vec::with_capacity(alloc, uses.len() / 2)?;
    for index in 0..uses.len() / 2 {
        all.push(uses[2 * index + 1])?;
    }
    Ok(all)
}

/// How many documents have one of some words and were not deleted, by the uses of tests of which the first is that of document
/// ends, and every second a word. It adds at most a step a list and one a location.
fn any_of_uses<L: Ledger>(
    alloc: Global,
    tests: &[TestLists],
    uses: &[usize],
    gone: &[Loc],
    steps: &mut Steps<L>,
) -> Result<u64, AllocError>
    requires some { 0 < length uses.now }
    requires cut { All IsCut (map (lists_at tests.now) uses.now) }
    requires single { All IsSingle (map (lists_at tests.now) uses.now) }
    requires gone { IsRising gone.now }
    ensures count { IfOk result (λ n. n ≡ count_live
        (ends_with_any (test_list (lists_at tests.now (slice_index uses.now 0)))
        (map test_list (map (lists_at tests.now) (seconds uses.now)))) gone.now 0) }
    ensures most { steps.new ≤ steps.old + locations (map (lists_at tests.now) uses.now)
        + lists (map (lists_at tests.now) uses.now) }
{
    let words = every_second(alloc, uses)?;
    let live = asked_lists(alloc, false, tests, uses[0], &words, gone, steps)?;
    Ok(live)
}

/// Whether a snapshot of the tests of an Or of words has some, and few enough to walk over the words together.
pub(crate) fn has_few_words(snapshot: &Section<'_>) -> bool
    ensures { IsTrue result → 0 < length snapshot.now.tests }
{
    let (_tests, uses) = snapshot.uses();
    if uses.len() == 0 {
        return false;
    }
    uses.len() <= 2 * WORDS
}

/// How many documents have one of the words of an Or and were not deleted, over the snapshot of the tests of its plan. It adds at
/// most as many steps as the lists of the tests are and have locations. Fails for want of memory alone.
pub(crate) fn count_either<L: Ledger>(
    alloc: Global,
    snapshot: &Section<'_>,
    steps: &mut Steps<L>,
) -> Result<u64, AllocError>
    requires some { 0 < length snapshot.now.tests }
    requires exact { All IsExact snapshot.now.tests }
    ensures { WalksOver snapshot.now steps.old steps.new result (λ n. (space : List Placed) (words : List Test)
        → Shows space snapshot.now → snapshot.now.tests ≡ either_tests words
        → n ≡ count_live (ends_with_any (ends_of space) (map (list_of space) words)) snapshot.now.gone 0) }
{
    let (tests, uses) = snapshot.uses();
    let live = any_of_uses(alloc, tests, uses, snapshot.gone(), steps)?;
    Ok(live)
}

/// How many documents have the first of two words before the second and were not deleted, by the uses of the test of document
/// ends and of the two. It adds at most a step a list and one a location.
fn followed_uses<L: Ledger>(
    alloc: Global,
    tests: &[TestLists],
    uses: &[usize],
    gone: &[Loc],
    steps: &mut Steps<L>,
) -> Result<u64, AllocError>
    requires three { length uses.now ≡ 3 }
    requires cut { All IsCut (map (lists_at tests.now) uses.now) }
    requires single { All IsSingle (map (lists_at tests.now) uses.now) }
    requires gone { IsRising gone.now }
    ensures count { IfOk result (λ n. n ≡ count_live
        (ends_followed (slice_index_or (map test_list (map (lists_at tests.now) uses.now)) 0 [])
        (slice_index_or (map test_list (map (lists_at tests.now) uses.now)) 1 [])
        (slice_index_or (map test_list (map (lists_at tests.now) uses.now)) 2 [])) gone.now 0) }
    ensures most { steps.new ≤ steps.old + locations (map (lists_at tests.now) uses.now)
        + lists (map (lists_at tests.now) uses.now) }
{
    let (ends, words) = uses.split_at(1);
    let live = asked_lists(alloc, true, tests, ends[0], words, gone, steps)?;
    Ok(live)
}

/// How many documents have a word in a title and were not deleted, over the snapshot of the tests of its plan. It adds at most as
/// many steps as the lists of the tests are and have locations. Fails for want of memory alone.
pub(crate) fn count_titled<L: Ledger>(
    alloc: Global,
    snapshot: &Section<'_>,
    steps: &mut Steps<L>,
) -> Result<u64, AllocError>
    requires three { length snapshot.now.tests ≡ 3 }
    requires exact { All IsExact snapshot.now.tests }
    ensures { WalksOver snapshot.now steps.old steps.new result (λ n. (space : List Placed) (word : Test)
        → Shows space snapshot.now → snapshot.now.tests ≡ document_end ∷ word ∷ title_end ∷ []
        → n ≡ count_live (ends_followed (ends_of space) (list_of space word) (list_of space title_end))
        snapshot.now.gone 0) }
{
    let (tests, uses) = snapshot.uses();
    let live = followed_uses(alloc, tests, uses, snapshot.gone(), steps)?;
    Ok(live)
}
