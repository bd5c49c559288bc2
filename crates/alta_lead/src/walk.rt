// How many documents of a conjunction were not deleted, by one walk that its leading word leads.
// A count holds at no answer, so it need not go to the end of the next document first: it goes on by two moves, of the word behind
// the document's end and of the ends to where the word stands, and a loop over ends in memory and coded lists asks no reader what
// kind it is.
ghost use Rattle.std.specs.Prelude.{◌≡◌, ℕ, ◌+◌, ◌*◌, ◌<◌, ◌≤◌, [], map, length, slice_index, slice_index_or, sum_by, All, Contains};
ghost use Rattle.std.specs.Bool.{OnTrue, OnFalse};
ghost use Rattle.alta_codec.specs.Rising.{IsRising, pred_of, count_from};
ghost use Rattle.alta_codec.specs.declared.location.TheConstants.{TOP};
ghost use Rattle.alta_docread.specs.Kept.{less};
ghost use Rattle.alta_docread.specs.Tree.{IsAhead};
ghost use Rattle.alta_lead.specs.Having.{ends_having};
ghost use Rattle.alta_lead.specs.Moves.{AreAhead, CostsAtMost};
ghost use Rattle.alta_lead.specs.Tallying.{IsLedTo};

use crate::chains::{bring, reach};
use crate::rounds::told;
use alta_codec::{Loc, Steps, TOP, index_from};
use alta_compound::EndReader;
use alta_reader::BackReader;
use std::sync::ledger::Ledger;

/// Goes on to the first document from `from` on, where a document begins, in which the leading word has a location. It answers
/// where that ends, and whether it has each word and no negated word; `TOP` where there is none.
fn document<E: BackReader, R: BackReader, L: Ledger>(
    ends: &mut EndReader<E>,
    words: &mut [R],
    negated: &mut [R],
    lead: usize,
    from: Loc,
    steps: &mut Steps<L>,
) -> (Loc, bool)
    requires ends { E.sound ends.old.inner }
    requires words { All R.sound words.old }
    requires negated { All R.sound negated.old }
    requires lead { lead < length words.old }
    requires top { from ≤ TOP }
    requires begins { pred_of (E.list ends.old.inner) from + 1 ≡ from }
    requires ends_ahead { IsAhead from (E.list ends.old.inner) (E.location ends.old.inner) }
    requires words_ahead { AreAhead from (map R.list words.old) (map R.location words.old) }
    requires negated_ahead { AreAhead from (map R.list negated.old) (map R.location negated.old) }
    ensures { IsLedTo E.sound E.list E.all E.location E.left E.cost R.sound R.list R.all R.location R.left R.cost
        (slice_index_or (map R.list words.old) lead [])
        (ends_having (E.list ends.old.inner) (map R.list words.old) (map R.list negated.old)) (E.list ends.old.inner)
        (map R.list words.old) (map R.list negated.old)
        ends.old.inner ends.new.inner words.old words.new negated.old negated.new from result.0 result.1
        steps.old steps.new }
{
    let at = bring(words, lead, from, steps);
    let end = reach(ends, at, steps);
    if end == TOP {
        return (TOP, false);
    }
    let next = told(words, negated, ends.start(), end, steps);
    (end, next == end)
}

/// Whether a document counts, as 1 or 0, which is an answer or not: 1 where it is one and its end was not deleted. Deleted ends
/// before the index lie below its end; it answers the first index of which that is not known.
pub(crate) fn counted(gone: &[Loc], from: usize, end: Loc, found: bool) -> (usize, u64)
    requires rising { IsRising gone.now }
    requires within { from ≤ length gone.now }
    requires before { (k : ℕ) → k < from → slice_index gone.now k < end }
    ensures within { result.0 ≤ length gone.now }
    ensures before { (k : ℕ) → k < result.0 → slice_index gone.now k < end }
    ensures one { OnTrue found ((Contains gone.now end → ⊥) → result.1 ≡ 1) }
    ensures none { OnFalse found (result.1 ≡ 0) }
    ensures dead { Contains gone.now end → result.1 ≡ 0 }
    ensures most { result.1 ≤ 1 }
{
    if !found {
        return (from, 0);
    }
    if from == gone.len() {
        return (from, 1);
    }
    let at = index_from(gone, from, end);
    if at == gone.len() {
        return (at, 1);
    }
    if gone[at] == end {
        return (at, 0);
    }
    (at, 1)
}

/// How many documents from `start` on, where a document begins, have each word and none of the negated words and were not
/// deleted. No reader has passed an element from there on. Each reader is moved at most twice for each location that the
/// leading word has from there on, and twice more.
fn tally_from<E: BackReader, R: BackReader, L: Ledger>(
    ends: &mut EndReader<E>,
    words: &mut [R],
    negated: &mut [R],
    lead: usize,
    start: Loc,
    gone: &[Loc],
    steps: &mut Steps<L>,
) -> u64
    requires ends { E.sound ends.old.inner }
    requires words { All R.sound words.old }
    requires negated { All R.sound negated.old }
    requires lead { lead < length words.old }
    requires top { start ≤ TOP }
    requires begins { pred_of (E.list ends.old.inner) start + 1 ≡ start }
    requires ends_ahead { IsAhead start (E.list ends.old.inner) (E.location ends.old.inner) }
    requires words_ahead { AreAhead start (map R.list words.old) (map R.location words.old) }
    requires negated_ahead { AreAhead start (map R.list negated.old) (map R.location negated.old) }
    requires gone { IsRising gone.now }
    ensures count { result ≡ count_from (less
        (ends_having (E.list ends.old.inner) (map R.list words.old) (map R.list negated.old)) gone.now) start }
    ensures steps { steps.new ≤ steps.old + (E.left ends.old.inner + sum_by R.left words.old
        + sum_by R.left negated.old) }
    ensures moves { CostsAtMost E.list E.cost R.list R.cost
        (2 * count_from (slice_index_or (map R.list words.old) lead []) start + 2)
        (λ of. of (E.list ends.old.inner) + sum_by of (map R.list words.old) + sum_by of (map R.list negated.old))
        steps.old steps.new }
{
    let mut live = 0;
    let mut from = start;
    let mut passed = 0;
    'documents: loop {
        let (end, found) = document(ends, words, negated, lead, from, steps);
        if end == TOP {
            return live;
        }
        let (at, more) = counted(gone, passed, end, found);
        live += more;
        passed = at;
        from = end + 1;
    }
}

/// How many documents have each word and none of the negated words and were not deleted, from the one on that ends at `at`,
/// which has them. No reader has passed an element from there on. Each reader is moved at most twice for each location that the
/// leading word has in that document and behind it. The ends and the words may be read by readers of two kinds, so that no
/// move asks which kind it is.
pub fn tally<E: BackReader, R: BackReader, L: Ledger>(
    ends: &mut EndReader<E>,
    words: &mut [R],
    negated: &mut [R],
    lead: usize,
    at: Loc,
    gone: &[Loc],
    steps: &mut Steps<L>,
) -> u64
    requires ends { E.sound ends.old.inner }
    requires words { All R.sound words.old }
    requires negated { All R.sound negated.old }
    requires lead { lead < length words.old }
    requires answer { Contains (ends_having (E.list ends.old.inner) (map R.list words.old)
        (map R.list negated.old)) at }
    requires ends_ahead { IsAhead at (E.list ends.old.inner) (E.location ends.old.inner) }
    requires words_ahead { AreAhead at (map R.list words.old) (map R.location words.old) }
    requires negated_ahead { AreAhead at (map R.list negated.old) (map R.location negated.old) }
    requires gone { IsRising gone.now }
    ensures count { result ≡ count_from (less
        (ends_having (E.list ends.old.inner) (map R.list words.old) (map R.list negated.old)) gone.now) at }
    ensures steps { steps.new ≤ steps.old + (E.left ends.old.inner + sum_by R.left words.old
        + sum_by R.left negated.old) }
    ensures moves { CostsAtMost E.list E.cost R.list R.cost
        (2 * count_from (slice_index_or (map R.list words.old) lead []) (pred_of (E.list ends.old.inner) at + 1))
        (λ of. of (E.list ends.old.inner) + sum_by of (map R.list words.old) + sum_by of (map R.list negated.old))
        steps.old steps.new }
{
    let (_passed, here) = counted(gone, 0, at, true);
    let behind = tally_from(ends, words, negated, lead, at + 1, gone, steps);
    here + behind
}
