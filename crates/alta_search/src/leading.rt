// Readers of the words of a conjunction, and the word that leads.
// The word with the fewest locations leads, always. Where it or the ends have none, the answer is there and no reader is made. A
// test of a word has one term at most, which a snapshot keeps, so its reader is no union, and moves at one step each.
ghost use Rattle.std.specs.Prelude.{◌≡◌, ℕ, ◌+◌, ◌<◌, ◌≤◌, [], ◌∷◌, ◌++◌, map, length, slice_index, All, IfOk, IfErr, IfSome, None};
ghost use Rattle.std.specs.List.{concat};
ghost use Rattle.alta_codec.specs.declared.location.TheConstants.{TOP};
ghost use Rattle.alta_codec.specs.Rising.{IsRising};
ghost use Rattle.alta_search.specs.Conjoined.{conjoined_tests};
ghost use Rattle.alta_search.specs.Leads.{thirds, IsLeadOf, IsLedOver};
ghost use Rattle.alta_search.specs.Lists.{level_list, term_lists, lists_at, IsCut, count_lists, count_locations};
ghost use Rattle.alta_search.specs.Met.{IsExact, IsSingle};
ghost use Rattle.alta_search.specs.Plans.{lists};
ghost use Rattle.alta_search.specs.Readers.{Each, IsAtStart, IsFresh};
ghost use Rattle.alta_search.specs.Words.{IsSoundSingle, single_list, single_place, single_left};
ghost use Rattle.alta_search.specs.Made.{IsMadeReader, MakesReaders};

use crate::lists::{LevelList, Stored, TermLists, TestLists, terms_at};
use crate::plan_reader::PlanReader;
use crate::readers::{chain, lone};
use crate::section::Section;
use crate::single_reader::SingleReader;
use alta_codec::{Loc, Steps};
use alta_compile::Conjunction;
use alta_words::PlainReader;
use std::alloc::{AllocError, Global};
use std::sync::ledger::Ledger;

/// How many locations a list has.
fn list_len(list: &LevelList) -> u64
    ensures { result ≡ length (level_list list.now) }
{
    match &list.stored {
        Stored::Coded(posting) => posting.list_len(),
        Stored::Shared(posting) => posting.list_len(),
        Stored::Plain(list) => list.len() as u64,
        Stored::Ends(rows) => rows.ends().len() as u64,
    }
}

/// How many locations the lists of a term have.
pub fn term_len(levels: &[LevelList]) -> u64
    requires { IsRising (concat (map level_list levels.now)) }
    ensures { result ≡ length (concat (map level_list levels.now)) }
{
    let mut sum = 0;
    for list in levels {
        sum += list_len(list);
    }
    sum
}

/// The term of a test that has one.
fn only_term<'a>(terms: &'a [TermLists]) -> Option<&'a TermLists>
    requires { IsSingle (map term_lists terms.now) }
    ensures some { IfSome result (λ term. map term_lists terms.now ≡ term_lists term.now ∷ []) }
    ensures none { result ≡ None → map term_lists terms.now ≡ [] }
{
    match terms {
        [term] => Some(term),
        _ => None,
    }
}

/// How many locations a test has that has one term at most.
fn test_len(terms: &[TermLists]) -> u64
    requires cut { IsCut (map term_lists terms.now) }
    requires single { IsSingle (map term_lists terms.now) }
    ensures { result ≡ count_locations (map term_lists terms.now) }
{
    match only_term(terms) {
        Some(term) => term_len(&term.levels),
        None => 0,
    }
}

/// How many locations the test at an index has.
fn len_at(tests: &[TestLists], index: usize) -> u64
    requires cut { IsCut (lists_at tests.now index) }
    requires single { IsSingle (lists_at tests.now index) }
    ensures { result ≡ count_locations (lists_at tests.now index) }
{
    test_len(terms_at(tests, index))
}

/// Which of these tests has the fewest locations, the first of them.
pub fn rarest(tests: &[TestLists], words: &[usize]) -> usize
    requires some { 0 < length words.now }
    requires cut { All IsCut (map (lists_at tests.now) words.now) }
    requires single { All IsSingle (map (lists_at tests.now) words.now) }
    ensures within { result < length words.now }
    ensures least { (k : ℕ) → k < length words.now
        → count_locations (lists_at tests.now (slice_index words.now result))
        ≤ count_locations (lists_at tests.now (slice_index words.now k)) }
{
    let mut lead = 0;
    let mut fewest = len_at(tests, words[0]);
    for i in 1..words.len() {
        let len = len_at(tests, words[i]);
        if len < fewest {
            lead = i;
            fewest = len;
        }
    }
    lead
}

/// A reader of the locations of a list, at the first. It adds one step.
pub fn list_reader<'a, L: Ledger>(list: &'a LevelList, steps: &mut Steps<L>) -> SingleReader<'a>
    requires { IsRising (level_list list.now) }
    ensures { IsMadeReader steps.old steps.new result IsSoundSingle
        (IsAtStart single_list single_list single_place single_left (level_list list.now)) }
{
    match &list.stored {
        Stored::Coded(posting) => SingleReader::Coded(posting.reader(steps)),
        Stored::Shared(posting) => SingleReader::Coded(posting.reader(steps)),
        Stored::Plain(list) => SingleReader::Plain(PlainReader::new(list, steps)),
        Stored::Ends(rows) => SingleReader::Plain(PlainReader::new(rows.ends(), steps)),
    }
}

/// A reader of the locations of the lists of a term, at the first. It adds a step a list.
pub fn chain_reader<'a, L: Ledger>(
    alloc: Global,
    levels: &'a [LevelList],
    steps: &mut Steps<L>,
) -> Result<SingleReader<'a>, AllocError>
    requires { IsRising (concat (map level_list levels.now)) }
    ensures { MakesReaders (length levels.now) steps.old steps.new result IsSoundSingle
        (IsAtStart single_list single_list single_place single_left (concat (map level_list levels.now))) }
{
    let reader = chain(alloc, levels, steps)?;
    Ok(SingleReader::Chain(reader))
}

/// A reader of the locations of a test that has one term at most, at the first. It adds a step a list.
pub(crate) fn word_reader<'a, L: Ledger>(
    alloc: Global,
    terms: &'a [TermLists],
    steps: &mut Steps<L>,
) -> Result<SingleReader<'a>, AllocError>
    requires cut { IsCut (map term_lists terms.now) }
    requires single { IsSingle (map term_lists terms.now) }
    ensures { MakesReaders (count_lists (map term_lists terms.now)) steps.old steps.new result IsSoundSingle
        (IsFresh single_list single_list single_place single_left (map term_lists terms.now)) }
{
    if let Some(list) = lone(terms) {
        return Ok(list_reader(list, steps));
    }
    match only_term(terms) {
        Some(term) => {
            let reader = chain_reader(alloc, &term.levels, steps)?;
            Ok(reader)
        }
        None => {
            let reader = chain_reader(alloc, &[], steps)?;
            Ok(reader)
        }
    }
}

/// Readers of the locations of the tests at these indexes, in their order. It adds a step a list.
pub(crate) fn word_readers<'a, L: Ledger>(
    alloc: Global,
    tests: &'a [TestLists],
    uses: &[usize],
    steps: &mut Steps<L>,
) -> Result<Vec<SingleReader<'a>>, AllocError>
    requires cut { All IsCut (map (lists_at tests.now) uses.now) }
    requires single { All IsSingle (map (lists_at tests.now) uses.now) }
    ensures { MakesReaders (lists (map (lists_at tests.now) uses.now)) steps.old steps.new result
        (λ rs. All IsSoundSingle rs.items)
        (λ rs. Each (IsFresh single_list single_list single_place single_left)
        (map (lists_at tests.now) uses.now) rs.items) }
{
    let mut readers = Vec::with_capacity(alloc, uses.len())?;
    for index in uses {
        let reader = word_reader(alloc, terms_at(tests, *index), steps)?;
        readers.push(reader)?;
    }
    Ok(readers)
}

/// A reader of the ends of the documents that have each of these words and none of the negated ones, by the indexes of their
/// tests and of the test of document ends. The word of the index `lead` leads, which has the fewest locations.
fn led<'a, L: Ledger>(
    alloc: Global,
    tests: &'a [TestLists],
    ends: usize,
    words: &[usize],
    negated: &[usize],
    lead: usize,
    from: Loc,
    steps: &mut Steps<L>,
) -> Result<PlanReader<'a>, AllocError>
    requires within { lead < length words.now }
    requires least { (k : ℕ) → k < length words.now → count_locations (lists_at tests.now (slice_index words.now lead))
        ≤ count_locations (lists_at tests.now (slice_index words.now k)) }
    requires some_ends { 0 < count_locations (lists_at tests.now ends) }
    requires some_words { 0 < count_locations (lists_at tests.now (slice_index words.now lead)) }
    requires cut { All IsCut (map (lists_at tests.now) (ends ∷ words.now ++ negated.now)) }
    requires single { All IsSingle (map (lists_at tests.now) (ends ∷ words.now ++ negated.now)) }
    requires top { from ≤ TOP }
    ensures led { IfOk result (λ r. IsLeadOf (lists_at tests.now ends) (map (lists_at tests.now) words.now)
        (map (lists_at tests.now) negated.now) r from steps.old steps.new) }
    ensures failed { IfErr result (λ _. steps.new
        ≤ steps.old + lists (map (lists_at tests.now) (ends ∷ words.now ++ negated.now))) }
{
    let ends = word_reader(alloc, terms_at(tests, ends), steps)?;
    let words = word_readers(alloc, tests, words, steps)?;
    let negated = word_readers(alloc, tests, negated, steps)?;
    Ok(PlanReader::by_lead(ends, words, negated, lead, from, steps))
}

/// The same, led by the word with the fewest locations. Where that word or the ends have no location there is nothing to find,
/// and no reader is made.
fn led_by_rarest<'a, L: Ledger>(
    alloc: Global,
    tests: &'a [TestLists],
    ends: usize,
    words: &[usize],
    negated: &[usize],
    from: Loc,
    steps: &mut Steps<L>,
) -> Result<PlanReader<'a>, AllocError>
    requires some { 0 < length words.now }
    requires cut { All IsCut (map (lists_at tests.now) (ends ∷ words.now ++ negated.now)) }
    requires single { All IsSingle (map (lists_at tests.now) (ends ∷ words.now ++ negated.now)) }
    requires top { from ≤ TOP }
    ensures led { IfOk result (λ r. IsLeadOf (lists_at tests.now ends) (map (lists_at tests.now) words.now)
        (map (lists_at tests.now) negated.now) r from steps.old steps.new) }
    ensures failed { IfErr result (λ _. steps.new
        ≤ steps.old + lists (map (lists_at tests.now) (ends ∷ words.now ++ negated.now))) }
{
    let lead = rarest(tests, words);
    if len_at(tests, ends) == 0 {
        return Ok(PlanReader::nothing());
    }
    if len_at(tests, words[lead]) == 0 {
        return Ok(PlanReader::nothing());
    }
    led(alloc, tests, ends, words, negated, lead, from, steps)
}

/// Every third of these indexes.
pub fn every_third(alloc: Global, uses: &[usize]) -> Result<Vec<usize>, AllocError>
    ensures { IfOk result (λ all. all.items ≡ thirds uses.now) }
{
    let mut all = Vec::with_capacity(alloc, uses.len() / 3)?;
    for index in 0..uses.len() / 3 {
        all.push(uses[3 * index + 2])?;
    }
    Ok(all)
}

/// A reader of the ends of the documents of a conjunction over the snapshot of the tests of its plan, which its rarest word
/// leads. Where that word or all documents have no location there is nothing to find, and no reader is made.
pub(crate) fn by_rarest<'a, L: Ledger>(
    alloc: Global,
    found: &Conjunction,
    snapshot: &Section<'a>,
    from: Loc,
    steps: &mut Steps<L>,
) -> Result<PlanReader<'a>, AllocError>
    requires tests { snapshot.now.tests ≡ conjoined_tests found.now }
    requires some { 0 < length found.now.words }
    requires exact { All IsExact snapshot.now.tests }
    requires top { from ≤ TOP }
    ensures led { IfOk result (λ r. IsLedOver found.now snapshot.now r from steps.old steps.new) }
    ensures failed { IfErr result (λ _. steps.new ≤ steps.old + lists snapshot.now.cuts) }
{
    let (tests, uses) = snapshot.uses();
    let (ends, behind) = uses.split_at(1);
    let (words, against) = behind.split_at(found.words.len());
    let negated = every_third(alloc, against)?;
    let reader = led_by_rarest(alloc, tests, ends[0], words, &negated, from, steps)?;
    Ok(reader)
}
