// How many documents that have one of several words were not deleted, by one walk over them.
// Each document costs one move of the ends and one of each word that has it, and each list is read once; counting one word and then
// the other without the first would read one twice. Beyond eight words the tree of the plan is asked, whose heap looks at fewer
// words a document.
ghost use Rattle.std.specs.Prelude.{◌≡◌, ◌+◌, ◌-◌, ◌*◌, ◌≤◌, true, [], map, sum_by, All};
ghost use Rattle.alta_codec.specs.Rising.{IsRising, first_from, pred_of, count_from};
ghost use Rattle.alta_codec.specs.declared.location.TheConstants.{TOP};
ghost use Rattle.alta_compound.specs.Union.{union_of};
ghost use Rattle.alta_docread.specs.Kept.{less};
ghost use Rattle.alta_docread.specs.Tree.{IsAhead};
ghost use Rattle.alta_lead.specs.Having.{ends_with_any};
ghost use Rattle.alta_lead.specs.Moves.{AreAhead, AreMoved, CostsAtMost};
ghost use Rattle.alta_lead.specs.Tallying.{IsLedTo};

use crate::chains::{bring, reach};
use crate::walk::counted;
use alta_codec::{Loc, Steps, TOP};
use alta_compound::EndReader;
use alta_reader::BackReader;
use std::sync::ledger::Ledger;

/// Brings each word to its first place from `from` on, and answers the least of these places, `TOP` where there is none.
fn first_of_any<R: BackReader, L: Ledger>(words: &mut [R], from: Loc, steps: &mut Steps<L>) -> Loc
    requires sound { All R.sound words.old }
    requires ahead { AreAhead from (map R.list words.old) (map R.location words.old) }
    requires top { from ≤ TOP }
    ensures place { result ≡ first_from (union_of (map R.list words.old)) from }
    ensures ahead { AreAhead from (map R.list words.old) (map R.location words.new) }
    ensures moved { AreMoved R.sound R.list R.all R.left R.cost 1 words.old words.new (steps.new - steps.old) }
{
    let mut least = TOP;
    for i in 0..words.len() {
        least = least.min(bring(words, i, from, steps));
    }
    least
}

/// Goes on to the first document from `from` on, where a document begins, in which one of the words has a location. It answers
/// where that ends; `TOP` where there is none.
fn document<E: BackReader, R: BackReader, L: Ledger>(
    ends: &mut EndReader<E>,
    words: &mut [R],
    from: Loc,
    steps: &mut Steps<L>,
) -> Loc
    requires ends { E.sound ends.old.inner }
    requires words { All R.sound words.old }
    requires top { from ≤ TOP }
    requires begins { pred_of (E.list ends.old.inner) from + 1 ≡ from }
    requires ends_ahead { IsAhead from (E.list ends.old.inner) (E.location ends.old.inner) }
    requires words_ahead { AreAhead from (map R.list words.old) (map R.location words.old) }
    ensures { IsLedTo E.sound E.list E.all E.location E.left E.cost R.sound R.list R.all R.location R.left R.cost
        (union_of (map R.list words.old))
        (ends_with_any (E.list ends.old.inner) (map R.list words.old)) (E.list ends.old.inner) (map R.list words.old) []
        ends.old.inner ends.new.inner words.old words.new [] [] from result true steps.old steps.new }
{
    let at = first_of_any(words, from, steps);
    reach(ends, at, steps)
}

/// How many documents have one of the words and were not deleted. No reader was moved before. Each document is looked at by all
/// words, so it is meant for a few of them; each list is read once. Each reader is moved at most twice for each location of the
/// words together, and twice more. The ends and the words may be read by readers of two kinds.
pub fn tally_any_of<E: BackReader, R: BackReader, L: Ledger>(
    ends: &mut EndReader<E>,
    words: &mut [R],
    gone: &[Loc],
    steps: &mut Steps<L>,
) -> u64
    requires ends { E.sound ends.old.inner }
    requires words { All R.sound words.old }
    requires ends_unmoved { E.location ends.old.inner ≡ first_from (E.list ends.old.inner) 0 }
    requires words_unmoved { All (λ r. R.location r ≡ first_from (R.list r) 0) words.old }
    requires gone { IsRising gone.now }
    ensures count { result ≡ count_from (less
        (ends_with_any (E.list ends.old.inner) (map R.list words.old)) gone.now) 0 }
    ensures steps { steps.new ≤ steps.old + (E.left ends.old.inner + sum_by R.left words.old) }
    ensures moves { CostsAtMost E.list E.cost R.list R.cost (2 * count_from (union_of (map R.list words.old)) 1 + 2)
        (λ of. of (E.list ends.old.inner) + sum_by of (map R.list words.old)) steps.old steps.new }
{
    let mut live = 0;
    let mut from = 1;
    let mut passed = 0;
    'documents: loop {
        let end = document(ends, words, from, steps);
        if end == TOP {
            return live;
        }
        let (at, more) = counted(gone, passed, end, true);
        live += more;
        passed = at;
        from = end + 1;
    }
}
