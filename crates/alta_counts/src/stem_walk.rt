// How many documents have a term of a stem, by one walk over the union of its terms.
ghost use Rattle.std.specs.Prelude.{◌≡◌, ◌+◌, ◌<◌, ◌≤◌, List, [], ◌∷◌, map, drop, length, slice_index_or, sum_by, All, IfOk};
ghost use Rattle.alta_codec.specs.Rising.{IsRising};
ghost use Rattle.alta_compile.specs.Space.{Placed, document_end, ends_of, list_of};
ghost use Rattle.alta_lead.specs.Having.{ends_with_any};
ghost use Rattle.alta_machine.specs.declared.test.Test.{Test};
ghost use Rattle.alta_counts.specs.Live.{count_live};
ghost use Rattle.alta_search.specs.Lists.{test_list, lists_at, IsCut};
ghost use Rattle.alta_search.specs.Plans.{lists, locations};
ghost use Rattle.alta_search.specs.View.{Shows};
ghost use Rattle.alta_search.specs.Words.{IsSoundReader, reader_list, reader_left, IsUnmovedReader};
ghost use Rattle.alta_search.specs.Walked.{WalksOver};

use crate::walk::{Asking, walked};
use alta_codec::{Loc, Steps};
use alta_search::readers::{reader, readers};
use alta_search::{Section, TestLists, TestReader, terms_at};
use std::alloc::{AllocError, Global};
use std::sync::ledger::Ledger;

/// How many documents have a location of one of the tests and were not deleted, by a walk for the kind of the ends. No reader was
/// moved.
fn stem_by_kind<'a, L: Ledger>(
    alloc: Global,
    ends: TestReader<'a>,
    words: Vec<TestReader<'a>>,
    gone: &[Loc],
    steps: &mut Steps<L>,
) -> u64
    requires ends { IsSoundReader ends }
    requires words { All IsSoundReader words.items }
    requires ends_unmoved { IsUnmovedReader ends }
    requires words_unmoved { All IsUnmovedReader words.items }
    requires gone { IsRising gone.now }
    ensures count { result ≡ count_live (ends_with_any (reader_list ends.entry)
        (map reader_list words.entry.items)) gone.now 0 }
    ensures steps { steps.new ≤ steps.old + (reader_left ends.entry + sum_by reader_left words.entry.items) }
{
    let walk = Asking::Walked(false);
    let negated = Vec::new(alloc);
    match ends {
        TestReader::Plain(plain) => walked(walk, plain, words, negated, 0, gone, steps),
        other => walked(walk, other, words, negated, 0, gone, steps),
    }
}

/// How many documents have a location of one of the tests behind the first, which is that of document ends, and were not deleted,
/// by their uses. It adds at most a step a list and one a location.
fn stem_uses<L: Ledger>(
    alloc: Global,
    tests: &[TestLists],
    uses: &[usize],
    gone: &[Loc],
    steps: &mut Steps<L>,
) -> Result<u64, AllocError>
    requires some { 0 < length uses.now }
    requires cut { All IsCut (map (lists_at tests.now) uses.now) }
    requires gone { IsRising gone.now }
    ensures count { IfOk result (λ n. n ≡ count_live
        (ends_with_any (slice_index_or (map test_list (map (lists_at tests.now) uses.now)) 0 [])
        (drop 1 (map test_list (map (lists_at tests.now) uses.now)))) gone.now 0) }
    ensures most { steps.new ≤ steps.old + locations (map (lists_at tests.now) uses.now)
        + lists (map (lists_at tests.now) uses.now) }
{
    let (front, words) = uses.split_at(1);
    let ends = reader(alloc, terms_at(tests, front[0]), steps)?;
    let words = readers(alloc, tests, words, steps)?;
    Ok(stem_by_kind(alloc, ends, words, gone, steps))
}

/// How many documents have a term of a stem and were not deleted, over the snapshot of the tests of its plan. It adds at most as
/// many steps as the lists of the tests are and have locations. Fails for want of memory alone.
pub(crate) fn count_stem<L: Ledger>(
    alloc: Global,
    snapshot: &Section<'_>,
    steps: &mut Steps<L>,
) -> Result<u64, AllocError>
    requires some { 0 < length snapshot.now.tests }
    ensures { WalksOver snapshot.now steps.old steps.new result (λ n. (space : List Placed) (stem : Test)
        → Shows space snapshot.now → snapshot.now.tests ≡ document_end ∷ stem ∷ []
        → n ≡ count_live (ends_with_any (ends_of space) (list_of space stem ∷ [])) snapshot.now.gone 0) }
{
    let (tests, uses) = snapshot.uses();
    let live = stem_uses(alloc, tests, uses, snapshot.gone(), steps)?;
    Ok(live)
}
