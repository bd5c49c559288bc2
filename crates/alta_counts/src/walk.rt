// How many documents are found and were not deleted, by one walk over a reader of the ends and readers of the words.
// What is asked of the words chooses the walk, and the kinds of the readers choose the code that moves them: both are asked once, and no
// move asks again.
ghost use Rattle.std.specs.Prelude.{◌≡◌, ◌+◌, ◌≤◌, map, sum_by, All, IfOk, IsTrue};
ghost use Rattle.alta_codec.specs.Rising.{IsRising};
ghost use Rattle.alta_counts.specs.Walking.{CanWalk, IsLed, Tallies};
ghost use Rattle.alta_search.specs.Words.{IsSoundSingle, single_list, single_place, single_left, IsCoded};
ghost use Rattle.alta_search.specs.declared.single_reader.SingleReader.TheVariants.{Coded, Plain};

use alta_codec::{Loc, Steps};
use alta_compound::EndReader;
use alta_lead::{tally, tally_any_of, tally_followed};
use alta_reader::BackReader;
use alta_search::SingleReader;
use alta_words::{PlainReader, WordReader};
use std::alloc::{AllocError, Global};
use std::sync::ledger::Ledger;

/// What is asked of the words of a document.
#[derive(Clone, Copy, Drop)]
pub(crate) enum Asking {
    /// Each of them and none of the negated words; the word of this index leads.
    Led(usize),
    /// The first of two before the second where this is so, else one of them.
    Walked(bool),
}

/// How many documents are found and were not deleted, from a place on. The ends and the words may be read by readers of two kinds.
pub(crate) fn walked<E: BackReader + Drop, R: BackReader + Drop, L: Ledger>(
    asking: Asking,
    ends: E,
    words: Vec<R>,
    negated: Vec<R>,
    at: Loc,
    gone: &[Loc],
    steps: &mut Steps<L>,
) -> u64
    requires ends { E.sound ends }
    requires words { All R.sound words.items }
    requires negated { All R.sound negated.items }
    requires stand { CanWalk asking (E.list ends) (map R.list words.items) (map R.list negated.items) at
        (E.location ends) (map R.location words.items) (map R.location negated.items) }
    requires cost { IsLed asking → ((e : E) → E.cost e ≤ 1) × ((r : R) → R.cost r ≤ 1) }
    requires gone { IsRising gone.now }
    ensures { Tallies asking (E.list ends) (map R.list words.items) (map R.list negated.items) at gone.now
        (E.left ends + sum_by R.left words.items + sum_by R.left negated.items) steps.old steps.new (λ So. So result) }
{
    let mut ends = EndReader::new(ends);
    let mut words = words;
    let mut negated = negated;
    match asking {
        Asking::Led(lead) => tally(&mut ends, &mut words, &mut negated, lead, at, gone, steps),
        Asking::Walked(followed) => {
            if followed {
                tally_followed(&mut ends, &mut words, gone, steps)
            } else {
                tally_any_of(&mut ends, &mut words, gone, steps)
            }
        }
    }
}

/// Whether it reads one list, which is coded.
fn is_coded(reader: &SingleReader<'_>) -> bool
    ensures { IsTrue result → IsCoded reader.now }
{
    match reader {
        SingleReader::Coded(_) => true,
        SingleReader::Plain(_) | SingleReader::Chain(_) => false,
    }
}

/// Whether each reads one list, which is coded.
fn are_coded(readers: &[SingleReader<'_>]) -> bool
    ensures { IsTrue result → All IsCoded readers.now }
{
    readers.iter().all(|reader| is_coded(reader))
}

/// The reader of that list.
fn coded(reader: SingleReader<'_>) -> WordReader<'_>
    requires { IsCoded reader }
    ensures { Coded result ≡ reader.entry }
{
    match reader {
        SingleReader::Coded(word) => word,
        SingleReader::Plain(_) | SingleReader::Chain(_) => unreachable!(),
    }
}

/// The readers of these lists.
fn all_coded<'a>(
    alloc: Global,
    readers: Vec<SingleReader<'a>>,
) -> Result<Vec<WordReader<'a>>, AllocError>
    requires { All IsCoded readers.items }
    ensures { IfOk result (λ words. map Coded words.items ≡ readers.entry.items) }
{
    let mut words = Vec::with_capacity(alloc, readers.len())?;
    for reader in readers {
        words.push(coded(reader))?;
    }
    Ok(words)
}

/// The same, where the ends stand in memory and the words are coded lists.
fn walked_coded<'a, L: Ledger>(
    alloc: Global,
    asking: Asking,
    ends: PlainReader<'a>,
    words: Vec<SingleReader<'a>>,
    negated: Vec<SingleReader<'a>>,
    at: Loc,
    gone: &[Loc],
    steps: &mut Steps<L>,
) -> Result<u64, AllocError>
    requires ends { IsSoundSingle (Plain ends) }
    requires words { All IsSoundSingle words.items }
    requires negated { All IsSoundSingle negated.items }
    requires words_coded { All IsCoded words.items }
    requires negated_coded { All IsCoded negated.items }
    requires stand { CanWalk asking (single_list (Plain ends)) (map single_list words.items)
        (map single_list negated.items) at (single_place (Plain ends))
        (map single_place words.items) (map single_place negated.items) }
    requires gone { IsRising gone.now }
    ensures { Tallies asking (single_list (Plain ends.entry)) (map single_list words.entry.items)
        (map single_list negated.entry.items) at gone.now
        (single_left (Plain ends.entry) + sum_by single_left words.entry.items
        + sum_by single_left negated.entry.items) steps.old steps.new (λ So. IfOk result So) }
{
    let words = all_coded(alloc, words)?;
    let negated = all_coded(alloc, negated)?;
    Ok(walked(asking, ends, words, negated, at, gone, steps))
}

/// The same, by code for the kinds of these readers. Fails for want of memory alone.
pub(crate) fn by_kind<'a, L: Ledger>(
    alloc: Global,
    asking: Asking,
    ends: SingleReader<'a>,
    words: Vec<SingleReader<'a>>,
    negated: Vec<SingleReader<'a>>,
    at: Loc,
    gone: &[Loc],
    steps: &mut Steps<L>,
) -> Result<u64, AllocError>
    requires ends { IsSoundSingle ends }
    requires words { All IsSoundSingle words.items }
    requires negated { All IsSoundSingle negated.items }
    requires stand { CanWalk asking (single_list ends) (map single_list words.items)
        (map single_list negated.items) at (single_place ends)
        (map single_place words.items) (map single_place negated.items) }
    requires gone { IsRising gone.now }
    ensures { Tallies asking (single_list ends.entry) (map single_list words.entry.items)
        (map single_list negated.entry.items) at gone.now
        (single_left ends.entry + sum_by single_left words.entry.items
        + sum_by single_left negated.entry.items) steps.old steps.new (λ So. IfOk result So) }
{
    match ends {
        SingleReader::Plain(plain) => {
            if are_coded(&words) && are_coded(&negated) {
                walked_coded(alloc, asking, plain, words, negated, at, gone, steps)
            } else {
                Ok(walked(asking, plain, words, negated, at, gone, steps))
            }
        }
        other => Ok(walked(asking, other, words, negated, at, gone, steps)),
    }
}
