// How many documents in which a word stands before another were not deleted, by one walk that the first word leads.
// Where any place of the first word in a document has the second behind it, the word's first place has: so one look at the second a
// document is enough.
ghost use Rattle.std.specs.Prelude.{◌≡◌, ◌+◌, ◌*◌, ◌≤◌, [], map, length, slice_index_or, sum_by, All};
ghost use Rattle.alta_codec.specs.Rising.{IsRising, first_from, pred_of, count_from};
ghost use Rattle.alta_codec.specs.declared.location.TheConstants.{TOP};
ghost use Rattle.alta_docread.specs.Kept.{less};
ghost use Rattle.alta_docread.specs.Tree.{IsAhead};
ghost use Rattle.alta_lead.specs.Followed.{ends_followed};
ghost use Rattle.alta_lead.specs.Moves.{AreAhead, CostsAtMost};
ghost use Rattle.alta_lead.specs.Tallying.{IsLedTo};

use crate::chains::{bring, reach};
use crate::walk::counted;
use alta_codec::{Loc, Steps, TOP};
use alta_compound::EndReader;
use alta_reader::BackReader;
use std::sync::ledger::Ledger;

/// Goes on to the first document from `from` on, where a document begins, in which the first of two words has a location. It
/// answers where that ends, and whether the second word stands there behind the first; `TOP` where there is none.
fn document<E: BackReader, R: BackReader, L: Ledger>(
    ends: &mut EndReader<E>,
    words: &mut [R],
    from: Loc,
    steps: &mut Steps<L>,
) -> (Loc, bool)
    requires ends { E.sound ends.old.inner }
    requires words { All R.sound words.old }
    requires pair { length words.old ≡ 2 }
    requires top { from ≤ TOP }
    requires begins { pred_of (E.list ends.old.inner) from + 1 ≡ from }
    requires ends_ahead { IsAhead from (E.list ends.old.inner) (E.location ends.old.inner) }
    requires words_ahead { AreAhead from (map R.list words.old) (map R.location words.old) }
    ensures { IsLedTo E.sound E.list E.all E.location E.left E.cost R.sound R.list R.all R.location R.left R.cost
        (slice_index_or (map R.list words.old) 0 [])
        (ends_followed (E.list ends.old.inner) (slice_index_or (map R.list words.old) 0 [])
        (slice_index_or (map R.list words.old) 1 []))
        (E.list ends.old.inner) (map R.list words.old) [] ends.old.inner ends.new.inner words.old words.new [] [] from
        result.0 result.1 steps.old steps.new }
{
    let at = bring(words, 0, from, steps);
    let end = reach(ends, at, steps);
    if end == TOP {
        return (TOP, false);
    }
    let next = bring(words, 1, at + 1, steps);
    (end, next <= end)
}

/// How many documents have the first of two words before the second and were not deleted. No reader was moved before; each list
/// is read once. Each reader is moved at most twice for each location of the first word, and twice more. The ends and the words
/// may be read by readers of two kinds.
pub fn tally_followed<E: BackReader, R: BackReader, L: Ledger>(
    ends: &mut EndReader<E>,
    words: &mut [R],
    gone: &[Loc],
    steps: &mut Steps<L>,
) -> u64
    requires ends { E.sound ends.old.inner }
    requires words { All R.sound words.old }
    requires pair { length words.old ≡ 2 }
    requires ends_unmoved { E.location ends.old.inner ≡ first_from (E.list ends.old.inner) 0 }
    requires words_unmoved { All (λ r. R.location r ≡ first_from (R.list r) 0) words.old }
    requires gone { IsRising gone.now }
    ensures count { result ≡ count_from (less
        (ends_followed (E.list ends.old.inner) (slice_index_or (map R.list words.old) 0 [])
        (slice_index_or (map R.list words.old) 1 [])) gone.now) 0 }
    ensures steps { steps.new ≤ steps.old + (E.left ends.old.inner + sum_by R.left words.old) }
    ensures moves { CostsAtMost E.list E.cost R.list R.cost
        (2 * count_from (slice_index_or (map R.list words.old) 0 []) 1 + 2)
        (λ of. of (E.list ends.old.inner) + sum_by of (map R.list words.old)) steps.old steps.new }
{
    let mut live = 0;
    let mut from = 1;
    let mut passed = 0;
    'documents: loop {
        let (end, found) = document(ends, words, from, steps);
        if end == TOP {
            return live;
        }
        let (at, more) = counted(gone, passed, end, found);
        live += more;
        passed = at;
        from = end + 1;
    }
}
