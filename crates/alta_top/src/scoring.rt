// The scores of documents over a snapshot.
// That a score fits in 64 bits is tested at each row, and is no condition on a snapshot, whose rows say no more than where documents
// stand: so no caller owes anything for `top` to be safe. Documents and queries that were read keep these limits (`AreToRank`), and rows
// of which the last ends below the limit on cells do too.
ghost use Rattle.std.specs.Prelude.{◌≡◌, ◌↔◌, ◌+◌, ◌^◌, ◌<◌, ◌≤◌, map, length, All, IsTrue, IfSome, IfOk, None};
ghost use Rattle.alta_compile.specs.Space.{document_end};
ghost use Rattle.alta_content.specs.Rows.{end_of};
ghost use Rattle.alta_rank.specs.Locations.{range_score};
ghost use Rattle.alta_machine.specs.declared.usage.Use.{Use};
ghost use Rattle.alta_search.specs.Lists.{IsCut, lists_at, test_at, count_lists, count_locations};
ghost use Rattle.alta_search.specs.Plans.{lists, locations};
ghost use Rattle.alta_top.specs.Scoring.{last_lists, IsScorerOf, HasScored, IsScorable};
ghost use Rattle.alta_search.specs.Tops.{same_test};
ghost use Rattle.alta_top.specs.Best.{lists_for, scoring_lists};
ghost use Rattle.alta_search.specs.Words.{reader_list};

use alta_codec::{Steps, TOP};
use alta_content::{AllRows, DocRow};
use alta_machine::kinds::DOCUMENT_END;
use alta_machine::{Test, Use, Uses};
use alta_rank::Scorer;
use alta_search::readers::{reader, readers};
use alta_search::{Section, TestLists, TestReader, same, terms_at};
use std::alloc::{AllocError, Global};
use std::sync::ledger::Ledger;

/// How many uses a query has at most.
const USES: usize = 64;

/// How many cells a document has at most, so that 4 times them and the uses is below 2^64.
const CELLS: u64 = 1 << 54;

/// The test at an index; past the last one, where that of document ends stands, none.
fn test_of<'a>(tests: &'a [TestLists], index: usize) -> Option<&'a Test>
    ensures some { IfSome result (λ test. test.now ≡ test_at tests.now index) }
    ensures none { result ≡ None → test_at tests.now index ≡ document_end }
{
    match tests.get(index) {
        Some(lists) => Some(&lists.test),
        None => None,
    }
}

/// Whether the test is that of document ends.
fn is_document_end(test: &Test) -> bool
    ensures { result ≡ same_test test.now document_end }
{
    match test {
        Test::Is(term) => term.as_slice() == [DOCUMENT_END].as_slice(),
        Test::Begins(_) => false,
    }
}

/// Whether the test is that at an index.
fn is_at(tests: &[TestLists], index: usize, test: &Test) -> bool
    ensures { result ≡ same_test test.now (test_at tests.now index) }
{
    match test_of(tests, index) {
        Some(other) => same(test, other),
        None => is_document_end(test),
    }
}

/// The index of the first of the used tests that is this one, or one past all tests.
fn index_for(tests: &[TestLists], used: &[usize], test: &Test) -> usize
    ensures { lists_at tests.now result ≡ lists_for test.now (map (test_at tests.now) used.now)
        (map (lists_at tests.now) used.now) }
{
    for index in used {
        if is_at(tests, *index, test) {
            return *index;
        }
    }
    tests.len()
}

/// The index of each use's test.
fn indexes_for(
    alloc: Global,
    tests: &[TestLists],
    used: &[usize],
    uses: &[Use],
) -> Result<Vec<usize>, AllocError>
    ensures { IfOk result (λ is. map (lists_at tests.now) is.items
        ≡ map (λ (u : Use). lists_for u.test (map (test_at tests.now) used.now)
        (map (lists_at tests.now) used.now)) uses.now) }
{
    let mut indexes = Vec::with_capacity(alloc, uses.len())?;
    for one in uses {
        indexes.push(index_for(tests, used, &one.test))?;
    }
    Ok(indexes)
}

/// Whether a use's next location leads to the next document that may be scored: there are few uses, and all rows end below the limit
/// on cells.
pub(crate) fn may_lead(uses: &Uses, rows: &AllRows) -> bool
    ensures few { IsTrue result → length uses.now ≤ 64 }
    ensures low { IsTrue result → All (λ r. end_of r < 2 ^ 54) rows.now }
{
    if uses.len() > USES {
        return false;
    }
    let mut walk = rows.walk();
    match walk.reach(CELLS) {
        Some(_) => false,
        None => true,
    }
}

/// A scorer by the uses of a query over the snapshot of its plan's tests, behind which stands that of title ends. It adds a step a
/// list.
pub(crate) fn scorer<'a, L: Ledger>(
    alloc: Global,
    snapshot: &Section<'a>,
    uses: Uses,
    steps: &mut Steps<L>,
) -> Result<Scorer<TestReader<'a>>, AllocError>
    requires { 0 < length snapshot.now.tests }
    ensures scorer { IfOk result (λ s. IsScorerOf uses snapshot.now s steps.old steps.new) }
    ensures most { steps.new ≤ steps.old + lists (scoring_lists uses snapshot.now)
        + count_lists (last_lists snapshot.now) }
{
    let (tests, used) = snapshot.uses();
    let indexes = indexes_for(alloc, tests, used, uses.as_slice())?;
    let readers = readers(alloc, tests, &indexes, steps)?;
    let titles = reader(alloc, terms_at(tests, used[used.len() - 1]), steps)?;
    match Scorer::new(readers, uses, titles) {
        Ok(scorer) => Ok(scorer),
        Err(_) => unreachable!(),
    }
}

/// Whether a row may be scored behind the rows before it.
pub(crate) fn may_be_scored(scorer: &Scorer<TestReader<'_>>, row: &DocRow) -> bool
    ensures { IsTrue result ↔ ((length scorer.now.uses ≤ 64) × IsScorable scorer.now.asked row.now) }
{
    scorer.len() <= USES
        && scorer.asked() < row.first
        && 1 <= row.cells
        && row.cells <= CELLS
        && row.first < TOP
        && row.first + row.cells - 1 < TOP
}

/// The score of the document of a row that may be scored.
pub(crate) fn score_of<L: Ledger>(
    scorer: &mut Scorer<TestReader<'_>>,
    row: &DocRow,
    steps: &mut Steps<L>,
) -> u64
    requires few { length scorer.old.uses ≤ 64 }
    requires may { IsScorable scorer.old.asked row.now }
    ensures has { HasScored scorer.old scorer.new steps.old steps.new }
    ensures score { result ≡ range_score scorer.old.uses (map reader_list scorer.old.readers)
        (reader_list scorer.old.titles) row.now.first (end_of row.now) }
    ensures asked { scorer.new.asked ≡ end_of row.now }
{
    scorer.score(row.first, row.first + row.cells - 1, steps)
}

/// The score of the document of a row, which stands behind those of the rows before it. Of a row that can't be one of a document
/// it is 0.
pub(crate) fn score_row<L: Ledger>(
    scorer: &mut Scorer<TestReader<'_>>,
    row: &DocRow,
    steps: &mut Steps<L>,
) -> u64
    ensures has { HasScored scorer.old scorer.new steps.old steps.new }
    ensures score { length scorer.old.uses ≤ 64 → IsScorable scorer.old.asked row.now
        → result ≡ range_score scorer.old.uses (map reader_list scorer.old.readers)
        (reader_list scorer.old.titles) row.now.first (end_of row.now) }
    ensures asked { length scorer.old.uses ≤ 64 → IsScorable scorer.old.asked row.now
        → scorer.new.asked ≡ end_of row.now }
{
    if !may_be_scored(scorer, row) {
        return 0;
    }
    score_of(scorer, row, steps)
}
