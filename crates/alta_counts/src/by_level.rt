// How many documents a query finds, level by level: a conjunction, or what one walk over a few words counts.
// A document lies in one level, and levels lie one behind the other. So what is found up to the last document of a level is found by
// the lists up to there alone: each level's lists are walked over side by side, and no move asks in which level it is. A place that
// some list goes over is no place to cut at, and a disk may have such lists. Where the words have few locations, all levels are walked
// over at once, since each level costs its readers and a first move of them. What is asked of the words chooses the walk over a level,
// and nothing else.
ghost use Rattle.std.specs.Prelude.{◌≡◌, ◌⊎◌, ℕ, ◌+◌, ◌*◌, ◌<◌, ◌≤◌, List, [], ◌∷◌, ◌++◌, map, length, slice_index, slice_index_or, sum_by, All, Contains, Some, None, IfOk, IsTrue};
ghost use Rattle.std.specs.Bool.{OnTrue, OnFalse};
ghost use Rattle.std.specs.List.{concat, filter};
ghost use Rattle.alta_codec.specs.declared.location.TheConstants.{TOP};
ghost use Rattle.alta_codec.specs.Rising.{IsRising, pred_of};
ghost use Rattle.alta_lead.specs.Having.{ends_having};
ghost use Rattle.alta_counts.specs.Live.{count_live};
ghost use Rattle.alta_counts.specs.Asked.{ends_asked};
ghost use Rattle.alta_counts.specs.ByLevel.{cut_at, between, IsCleft, levels_of, whole_at, part_at, has_lists, having_all, ends_at, CanAsk, leading_size, AreWindowSteps, CountsConjunction};
ghost use Rattle.alta_search.specs.Conjoined.{conjoined_tests};
ghost use Rattle.alta_search.specs.Lists.{level_list, term_lists};
ghost use Rattle.alta_search.specs.Made.{MakesReaders};
ghost use Rattle.alta_search.specs.Met.{IsExact};
ghost use Rattle.alta_search.specs.Readers.{Each, IsAtStart};
ghost use Rattle.alta_search.specs.Words.{IsSoundSingle, single_list, single_place, single_left};

use crate::tallies::tally;
use crate::walk::{Asking, by_kind};
use alta_codec::{Loc, Steps, TOP};
use alta_compile::Conjunction;
use alta_search::leading::{chain_reader, every_third, list_reader, rarest, term_len};
use alta_search::readers::only_list;
use alta_search::{
    LevelList, PlanReader, Section, SingleReader, Stored, TermLists, TestLists, terms_at,
};
use std::alloc::{AllocError, Global};
use std::sync::ledger::Ledger;

/// Of how many locations a level, taken over all levels, the words have more where the levels are walked over one by one.
const FEW: u64 = 64;

/// The lists of the first of these terms.
fn levels_in<'a>(terms: &'a [TermLists]) -> &'a [LevelList]
    ensures { map level_list result.now ≡ slice_index_or (map term_lists terms.now) 0 [] }
{
    match terms.get(0) {
        Some(term) => &term.levels,
        None => &[],
    }
}

/// The lists of the test at an index, which has one term at most.
fn levels_at<'a>(tests: &'a [TestLists], index: usize) -> &'a [LevelList]
    ensures { map level_list result.now ≡ levels_of tests.now index }
{
    levels_in(terms_at(tests, index))
}

/// The first of some locations, 0 where there is none.
fn first_in(list: &[Loc]) -> Loc
    ensures { result ≡ slice_index list.now 0 }
{
    if list.is_empty() { 0 } else { list[0] }
}

/// The first location of a list, 0 where it is empty.
fn first_of(list: &LevelList) -> Loc
    ensures { result ≡ slice_index (level_list list.now) 0 }
{
    match &list.stored {
        Stored::Coded(posting) => posting.first(),
        Stored::Shared(posting) => posting.first(),
        Stored::Plain(list) => first_in(list),
        Stored::Ends(rows) => first_in(rows.ends()),
    }
}

/// The last of some locations, 0 where there is none.
fn last_in(list: &[Loc]) -> Loc
    requires { IsRising list.now }
    ensures { result ≡ pred_of list.now TOP }
{
    if list.is_empty() {
        0
    } else {
        list[list.len() - 1]
    }
}

/// The last location of a list, 0 where it is empty.
fn last_of(list: &LevelList) -> Loc
    requires { IsRising (level_list list.now) }
    ensures { result ≡ pred_of (level_list list.now) TOP }
{
    match &list.stored {
        Stored::Coded(posting) => posting.last(),
        Stored::Shared(posting) => posting.last(),
        Stored::Plain(list) => last_in(list),
        Stored::Ends(rows) => last_in(rows.ends()),
    }
}

/// The last location of the list at an index, 0 where it is empty.
fn last_at(levels: &[LevelList], k: usize) -> Loc
    requires rising { IsRising (concat (map level_list levels.now)) }
    requires within { k < length levels.now }
    ensures { result ≡ pred_of (slice_index_or (map level_list levels.now) k []) TOP }
{
    last_of(&levels[k])
}

/// The first location of the list at an index, 0 where it is empty.
fn first_at(levels: &[LevelList], k: usize) -> Loc
    requires { k < length levels.now }
    ensures { result ≡ slice_index (slice_index_or (map level_list levels.now) k []) 0 }
{
    first_of(&levels[k])
}

/// How many of the lists, from the first on, have nothing above the place.
fn up_to(levels: &[LevelList], place: Loc) -> usize
    requires { IsRising (concat (map level_list levels.now)) }
    ensures { result ≡ cut_at place (map level_list levels.now) }
{
    let mut at = 0;
    'levels: while at < levels.len() && last_at(levels, at) <= place {
        at += 1;
    }
    at
}

/// Whether no list goes over the place, as far as that is seen: the others begin above it.
fn is_cleft(levels: &[LevelList], place: Loc) -> bool
    requires { IsRising (concat (map level_list levels.now)) }
    ensures { IsTrue result → IsCleft place (map level_list levels.now) }
{
    let at = up_to(levels, place);
    if at == levels.len() {
        return true;
    }
    first_at(levels, at) > place
}

/// The same of each of these tests.
fn are_cleft(tests: &[TestLists], uses: &[usize], place: Loc) -> bool
    requires { All (λ u. IsRising (whole_at tests.now u)) uses.now }
    ensures { IsTrue result → All (λ u. IsCleft place (levels_of tests.now u)) uses.now }
{
    for index in uses {
        if !is_cleft(levels_at(tests, *index), place) {
            return false;
        }
    }
    true
}

/// The lists of a test behind those up to one place, up to another.
fn lists_between<'a>(tests: &'a [TestLists], index: usize, low: Loc, high: Loc) -> &'a [LevelList]
    requires rising { IsRising (whole_at tests.now index) }
    requires ordered { low ≤ high }
    ensures { map level_list result.now ≡ between low high (levels_of tests.now index) }
{
    let levels = levels_at(tests, index);
    let (front, _above) = levels.split_at(up_to(levels, high));
    let (_below, there) = front.split_at(up_to(levels, low));
    there
}

/// Whether each of these tests has a list there.
fn each_has(tests: &[TestLists], uses: &[usize], low: Loc, high: Loc) -> bool
    requires rising { All (λ u. IsRising (whole_at tests.now u)) uses.now }
    requires ordered { low ≤ high }
    ensures each { OnTrue result (All (λ u. 0 < length (between low high (levels_of tests.now u))) uses.now) }
    ensures lacks { OnFalse result ((k : ℕ) × (k < length uses.now)
        × (between low high (levels_of tests.now (slice_index uses.now k)) ≡ [])) }
{
    for index in uses {
        if lists_between(tests, *index, low, high).is_empty() {
            return false;
        }
    }
    true
}

/// Those of these tests that have a list there.
fn present(
    alloc: Global,
    tests: &[TestLists],
    uses: &[usize],
    low: Loc,
    high: Loc,
) -> Result<Vec<usize>, AllocError>
    requires rising { All (λ u. IsRising (whole_at tests.now u)) uses.now }
    requires ordered { low ≤ high }
    ensures { IfOk result (λ all. all.items ≡ filter (has_lists tests.now low high) uses.now) }
{
    let mut all = Vec::with_capacity(alloc, uses.len())?;
    for index in uses {
        if !lists_between(tests, *index, low, high).is_empty() {
            all.push(*index)?;
        }
    }
    Ok(all)
}

/// A reader of the locations of these lists, at the first. It adds a step a list.
fn level_reader<'a, L: Ledger>(
    alloc: Global,
    levels: &'a [LevelList],
    steps: &mut Steps<L>,
) -> Result<SingleReader<'a>, AllocError>
    requires { IsRising (concat (map level_list levels.now)) }
    ensures { MakesReaders (length levels.now) steps.old steps.new result IsSoundSingle
        (IsAtStart single_list single_list single_place single_left (concat (map level_list levels.now))) }
{
    if let Some(list) = only_list(levels) {
        return Ok(list_reader(list, steps));
    }
    let reader = chain_reader(alloc, levels, steps)?;
    Ok(reader)
}

/// Readers of the lists of these tests between two places, in their order, each at its first location. It adds a step a list.
fn level_readers<'a, L: Ledger>(
    alloc: Global,
    tests: &'a [TestLists],
    uses: &[usize],
    low: Loc,
    high: Loc,
    steps: &mut Steps<L>,
) -> Result<Vec<SingleReader<'a>>, AllocError>
    requires rising { All (λ u. IsRising (whole_at tests.now u)) uses.now }
    requires ordered { low ≤ high }
    ensures { MakesReaders (sum_by (λ u. length (between low high (levels_of tests.now u))) uses.now) steps.old
        steps.new result (λ rs. All IsSoundSingle rs.items)
        (λ rs. Each (λ u r. IsAtStart single_list single_list single_place single_left
        (part_at tests.now low high u) r) uses.now rs.items) }
{
    let mut readers = Vec::with_capacity(alloc, uses.len())?;
    for index in uses {
        let levels = lists_between(tests, *index, low, high);
        let reader = level_reader(alloc, levels, steps)?;
        readers.push(reader)?;
    }
    Ok(readers)
}

/// How many documents have each word and none of the negated words and were not deleted, by the lists between two places alone.
fn tally_between<L: Ledger>(
    alloc: Global,
    tests: &[TestLists],
    ends: usize,
    words: &[usize],
    negated: &[usize],
    lead: usize,
    low: Loc,
    high: Loc,
    gone: &[Loc],
    steps: &mut Steps<L>,
) -> Result<u64, AllocError>
    requires lead { lead < length words.now }
    requires rising { All (λ u. IsRising (whole_at tests.now u)) (ends ∷ words.now ++ negated.now) }
    requires ordered { low ≤ high }
    requires gone { IsRising gone.now }
    ensures count { IfOk result (λ n. n ≡ count_live
        (ends_having (part_at tests.now low high ends) (map (part_at tests.now low high) words.now)
        (map (part_at tests.now low high) negated.now)) gone.now 0) }
    ensures steps { steps.new ≤ steps.old + sum_by (λ u. length (between low high (levels_of tests.now u))
        + length (part_at tests.now low high u)) (ends ∷ words.now ++ negated.now) }
    ensures moves { steps.new ≤ steps.old + sum_by (λ u. length (between low high (levels_of tests.now u)))
        (ends ∷ words.now ++ negated.now)
        + (2 * length (part_at tests.now low high (slice_index words.now lead)) + 2)
        * (1 + length words.now + length negated.now) }
{
    let ends = level_reader(alloc, lists_between(tests, ends, low, high), steps)?;
    let words = level_readers(alloc, tests, words, low, high, steps)?;
    let negated = level_readers(alloc, tests, negated, low, high, steps)?;
    let reader = PlanReader::by_lead(ends, words, negated, lead, 0, steps);
    let live = tally(alloc, reader, gone, steps)?;
    Ok(live)
}

/// How many of the documents above one place and up to another have each word and none of the negated words and were not deleted. No
/// list goes over the places. Where a word has no list between them, no reader is made.
fn led_between<L: Ledger>(
    alloc: Global,
    tests: &[TestLists],
    ends: usize,
    words: &[usize],
    negated: &[usize],
    lead: usize,
    low: Loc,
    high: Loc,
    gone: &[Loc],
    steps: &mut Steps<L>,
) -> Result<u64, AllocError>
    requires lead { lead < length words.now }
    requires rising { All (λ u. IsRising (whole_at tests.now u)) (ends ∷ words.now ++ negated.now) }
    requires ordered { low ≤ high }
    requires from { All (λ u. IsCleft low (levels_of tests.now u)) (ends ∷ words.now ++ negated.now) }
    requires until { All (λ u. IsCleft high (levels_of tests.now u)) (ends ∷ words.now ++ negated.now) }
    requires starts { (low ≡ 0) ⊎ Contains (whole_at tests.now ends) low }
    requires gone { IsRising gone.now }
    ensures count { IfOk result (λ n. n + count_live (having_all tests.now ends words.now negated.now) gone.now
        (high + 1) ≡ count_live (having_all tests.now ends words.now negated.now) gone.now (low + 1)) }
    ensures steps { AreWindowSteps (levels_of tests.now) (ends ∷ words.now ++ negated.now)
        (Some (length (whole_at tests.now (slice_index words.now lead)))) low high steps.old steps.new }
{
    if lists_between(tests, ends, low, high).is_empty() {
        return Ok(0);
    }
    if !each_has(tests, words, low, high) {
        return Ok(0);
    }
    let against = present(alloc, tests, negated, low, high)?;
    let live = tally_between(
        alloc, tests, ends, words, &against, lead, low, high, gone, steps,
    )?;
    Ok(live)
}

/// How many documents have the first of two words before the second, or one of the words, and were not deleted, by the lists between
/// two places alone.
fn walked_between<L: Ledger>(
    alloc: Global,
    followed: bool,
    tests: &[TestLists],
    ends: usize,
    words: &[usize],
    low: Loc,
    high: Loc,
    gone: &[Loc],
    steps: &mut Steps<L>,
) -> Result<u64, AllocError>
    requires pair { IsTrue followed → length words.now ≡ 2 }
    requires rising { All (λ u. IsRising (whole_at tests.now u)) (ends ∷ words.now) }
    requires ordered { low ≤ high }
    requires gone { IsRising gone.now }
    ensures count { IfOk result (λ n. n ≡ count_live
        (ends_asked followed (part_at tests.now low high ends)
        (map (part_at tests.now low high) words.now)) gone.now 0) }
    ensures steps { AreWindowSteps (levels_of tests.now) (ends ∷ words.now) None low high steps.old steps.new }
{
    let ends = level_reader(alloc, lists_between(tests, ends, low, high), steps)?;
    let words = level_readers(alloc, tests, words, low, high, steps)?;
    let walk = Asking::Walked(followed);
    let negated = Vec::new(alloc);
    let live = by_kind(alloc, walk, ends, words, negated, 0, gone, steps)?;
    Ok(live)
}

/// How many of the documents above one place and up to another are found and were not deleted. No list goes over the places.
fn count_between<L: Ledger>(
    alloc: Global,
    tests: &[TestLists],
    asking: Asking,
    ends: usize,
    words: &[usize],
    negated: &[usize],
    low: Loc,
    high: Loc,
    gone: &[Loc],
    steps: &mut Steps<L>,
) -> Result<u64, AllocError>
    requires can { CanAsk asking words.now negated.now }
    requires rising { All (λ u. IsRising (whole_at tests.now u)) (ends ∷ words.now ++ negated.now) }
    requires ordered { low ≤ high }
    requires from { All (λ u. IsCleft low (levels_of tests.now u)) (ends ∷ words.now ++ negated.now) }
    requires until { All (λ u. IsCleft high (levels_of tests.now u)) (ends ∷ words.now ++ negated.now) }
    requires starts { (low ≡ 0) ⊎ Contains (whole_at tests.now ends) low }
    requires gone { IsRising gone.now }
    ensures count { IfOk result (λ n. n + count_live (ends_at tests.now asking ends words.now negated.now) gone.now
        (high + 1) ≡ count_live (ends_at tests.now asking ends words.now negated.now) gone.now (low + 1)) }
    ensures steps { AreWindowSteps (levels_of tests.now) (ends ∷ words.now ++ negated.now)
        (leading_size tests.now asking words.now) low high steps.old steps.new }
{
    match asking {
        Asking::Led(lead) => led_between(
            alloc, tests, ends, words, negated, lead, low, high, gone, steps,
        ),
        Asking::Walked(followed) => walked_between(
            alloc, followed, tests, ends, words, low, high, gone, steps,
        ),
    }
}

/// Whether a place lies above another, and no list of these tests goes over it.
fn ends_there(
    tests: &[TestLists],
    ends: usize,
    words: &[usize],
    negated: &[usize],
    low: Loc,
    high: Loc,
) -> bool
    requires rising { All (λ u. IsRising (whole_at tests.now u)) (ends ∷ words.now ++ negated.now) }
    ensures above { IsTrue result → low < high }
    ensures cleft { IsTrue result → All (λ u. IsCleft high (levels_of tests.now u)) (ends ∷ words.now ++ negated.now) }
{
    if high <= low {
        return false;
    }
    if !is_cleft(levels_at(tests, ends), high) {
        return false;
    }
    if !are_cleft(tests, words, high) {
        return false;
    }
    are_cleft(tests, negated, high)
}

/// At the ends of how many of these levels it is cut, where the words have so many locations: of all but the last, or of none.
fn cuts(levels: &[LevelList], len: u64) -> usize
    ensures { result ≤ length levels.now }
{
    if len / FEW > levels.len() as u64 {
        levels.len().saturating_sub(1)
    } else {
        0
    }
}

/// How many locations a walk goes by: those of the rarest word where each is asked for, else those of all words together, or as many
/// as the number holds.
fn walked_len(tests: &[TestLists], asking: Asking, words: &[usize]) -> u64
    requires { All (λ u. IsRising (whole_at tests.now u)) words.now }
{
    let mut rarest = u64::MAX;
    let mut sum: u64 = 0;
    for index in words {
        let len = term_len(levels_at(tests, *index));
        rarest = rarest.min(len);
        sum = sum.saturating_add(len);
    }
    match asking {
        Asking::Walked(false) => sum,
        Asking::Led(_) | Asking::Walked(true) => rarest,
    }
}

/// How many documents are found and were not deleted, by the indexes of the tests and what is asked of the words.
pub(crate) fn count_levels<L: Ledger>(
    alloc: Global,
    tests: &[TestLists],
    asking: Asking,
    ends: usize,
    words: &[usize],
    negated: &[usize],
    gone: &[Loc],
    steps: &mut Steps<L>,
) -> Result<u64, AllocError>
    requires can { CanAsk asking words.now negated.now }
    requires rising { All (λ u. IsRising (whole_at tests.now u)) (ends ∷ words.now ++ negated.now) }
    requires gone { IsRising gone.now }
    ensures count { IfOk result (λ n. n ≡ count_live (ends_at tests.now asking ends words.now negated.now) gone.now 0) }
    ensures steps { AreWindowSteps (levels_of tests.now) (ends ∷ words.now ++ negated.now)
        (leading_size tests.now asking words.now) 0 TOP steps.old steps.new }
{
    let levels = levels_at(tests, ends);
    let len = walked_len(tests, asking, words);
    let mut live = 0;
    let mut low = 0;
    for at in 0..cuts(levels, len) {
        let high = last_at(levels, at);
        if ends_there(tests, ends, words, negated, low, high) {
            live += count_between(
                alloc, tests, asking, ends, words, negated, low, high, gone, steps,
            )?;
            low = high;
        }
    }
    let rest = count_between(
        alloc, tests, asking, ends, words, negated, low, TOP, gone, steps,
    )?;
    Ok(live + rest)
}

/// How many documents a conjunction finds that were not deleted, over the snapshot of the tests of its plan. Its rarest word leads.
/// Fails for want of memory alone.
pub(crate) fn count_by_level<L: Ledger>(
    alloc: Global,
    found: &Conjunction,
    snapshot: &Section<'_>,
    steps: &mut Steps<L>,
) -> Result<u64, AllocError>
    requires tests { snapshot.now.tests ≡ conjoined_tests found.now }
    requires some { 0 < length found.now.words }
    requires exact { All IsExact snapshot.now.tests }
    ensures { CountsConjunction found.now snapshot.now steps.old steps.new result }
{
    let (tests, uses) = snapshot.uses();
    let (ends, behind) = uses.split_at(1);
    let (words, against) = behind.split_at(found.words.len());
    let negated = every_third(alloc, against)?;
    let lead = rarest(tests, words);
    let live = count_levels(
        alloc,
        tests,
        Asking::Led(lead),
        ends[0],
        words,
        &negated,
        snapshot.gone(),
        steps,
    )?;
    Ok(live)
}
