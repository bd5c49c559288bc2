// What the locations of readers count in a range.
ghost use Rattle.std.specs.Prelude.{◌≡◌, ◌+◌, ◌^◌, ◌<◌, ◌≤◌, [], map, length, slice_index_or, All, sum_by};
ghost use Rattle.alta_codec.specs.Rising.{first_from, pred_of};
ghost use Rattle.alta_codec.specs.declared.location.TheConstants.{TOP};
ghost use Rattle.alta_machine.specs.Scores as cells;
ghost use Rattle.alta_rank.specs.Counted.{AreBehind, counted, counted_each};
ghost use Rattle.alta_rank.specs.Reads.{ReadOn, ReadsOn};

use alta_codec::{Loc, Steps, TOP};
use alta_machine::Use;
use alta_reader::BackReader;
use std::sync::ledger::Ledger;

/// What a location counts: 4 before the end of a title, and any other 1, or 0 for a use in the title.
fn weight(title: bool, before: bool) -> u64
    ensures { result ≡ cells.weight title before }
{
    if before {
        4
    } else if title {
        0
    } else {
        1
    }
}

/// The last location of a list that is at most `end`, 0 where there is none. It moves the reader once at most.
pub(crate) fn last_to<R: BackReader, L: Ledger>(
    reader: &mut R,
    end: Loc,
    steps: &mut Steps<L>,
) -> Loc
    requires sound { R.sound reader.old }
    requires behind { pred_of (R.list reader.old) (R.location reader.old) ≤ end }
    requires top { end < TOP }
    ensures reads { ReadsOn R.sound R.list R.left (λ r. pred_of (R.list r) (R.location r)
        ≤ end) reader.old reader.new steps.old steps.new }
    ensures last { result ≡ pred_of (R.list reader.old) (end + 1) }
{
    if reader.loc() <= end {
        reader.seek(end + 1, steps);
    }
    reader.prev()
}

/// Moves a reader to the first location at or above `first`, if it stands below.
fn reach<R: BackReader, L: Ledger>(reader: &mut R, first: Loc, steps: &mut Steps<L>)
    requires sound { R.sound reader.old }
    requires behind { pred_of (R.list reader.old) (R.location reader.old) < first }
    requires top { first ≤ TOP }
    ensures { ReadsOn R.sound R.list R.left (λ r. R.location r ≡ first_from (R.list reader.old) first) reader.old
        reader.new steps.old steps.new }
{
    if reader.loc() < first {
        reader.seek(first, steps);
    }
}

/// What the locations of a list count from `first` to `end`, where the last title ends at `last`.
fn score_list<R: BackReader, L: Ledger>(
    reader: &mut R,
    title: bool,
    last: Loc,
    first: Loc,
    end: Loc,
    steps: &mut Steps<L>,
) -> u64
    requires sound { R.sound reader.old }
    requires behind { pred_of (R.list reader.old) (R.location reader.old) < first }
    requires order { first ≤ end }
    requires top { end < TOP }
    requires fits { counted title last end (R.list reader.old) first < 2 ^ 64 }
    ensures reads { ReadsOn R.sound R.list R.left (λ r. pred_of (R.list r) (R.location r)
        ≤ end) reader.old reader.new steps.old steps.new }
    ensures score { result ≡ counted title last end (R.list reader.old) first }
{
    reach(reader, first, steps);
    let mut score = 0;
    'locations: while reader.loc() <= end {
        score += weight(title, reader.loc() < last);
        reader.next(steps);
    }
    score
}

/// What the locations count of the list of reader `i`, before which all readers have gone past the range.
fn score_at<R: BackReader, L: Ledger>(
    readers: &mut [R],
    i: usize,
    title: bool,
    last: Loc,
    first: Loc,
    end: Loc,
    steps: &mut Steps<L>,
) -> u64
    requires sound { All R.sound readers.old }
    requires within { i < length readers.old }
    requires behind { AreBehind R.list R.location readers.old i first end }
    requires order { first ≤ end }
    requires top { end < TOP }
    requires fits { counted title last end (slice_index_or (map R.list readers.old) i []) first < 2 ^ 64 }
    ensures sound { All R.sound readers.new }
    ensures lists { map R.list readers.new ≡ map R.list readers.old }
    ensures score { result ≡ counted title last end (slice_index_or (map R.list readers.old) i []) first }
    ensures behind { AreBehind R.list R.location readers.new (i + 1) first end }
    ensures steps { steps.new + sum_by R.left readers.new ≤ steps.old + sum_by R.left readers.old }
{
    score_list(&mut readers[i], title, last, first, end, steps)
}

/// What the locations of all lists count, each with its use.
pub(crate) fn score_each<R: BackReader, L: Ledger>(
    readers: &mut [R],
    uses: &[Use],
    last: Loc,
    first: Loc,
    end: Loc,
    steps: &mut Steps<L>,
) -> u64
    requires sound { All R.sound readers.old }
    requires paired { length uses.now ≡ length readers.old }
    requires behind { AreBehind R.list R.location readers.old 0 first end }
    requires order { first ≤ end }
    requires top { end < TOP }
    requires fits { counted_each uses.now (map R.list readers.old) last end first < 2 ^ 64 }
    ensures sound { All R.sound readers.new }
    ensures lists { map R.list readers.new ≡ map R.list readers.old }
    ensures score { result ≡ counted_each uses.now (map R.list readers.old) last end first }
    ensures behind { AreBehind R.list R.location readers.new (length readers.new) first end }
    ensures steps { steps.new + sum_by R.left readers.new ≤ steps.old + sum_by R.left readers.old }
{
    let mut score = 0;
    'uses: for i in 0..uses.len() {
        score += score_at(readers, i, uses[i].title, last, first, end, steps);
    }
    score
}

/// Moves a reader to its first location at or above `first`, if it stands below, and answers where it stands.
fn place_from<R: BackReader, L: Ledger>(reader: &mut R, first: Loc, steps: &mut Steps<L>) -> Loc
    requires sound { R.sound reader.old }
    requires behind { pred_of (R.list reader.old) (R.location reader.old) < first }
    requires top { first ≤ TOP }
    ensures reads { ReadsOn R.sound R.list R.left (λ r. pred_of (R.list r) (R.location r)
        < first) reader.old reader.new steps.old steps.new }
    ensures place { result ≡ first_from (R.list reader.old) first }
{
    reach(reader, first, steps);
    reader.loc()
}

/// The same of reader `i`.
fn place_at<R: BackReader, L: Ledger>(
    readers: &mut [R],
    i: usize,
    first: Loc,
    steps: &mut Steps<L>,
) -> Loc
    requires sound { All R.sound readers.old }
    requires within { i < length readers.old }
    requires behind { All (λ r. pred_of (R.list r) (R.location r) < first) readers.old }
    requires top { first ≤ TOP }
    ensures on { ReadOn R.sound R.list R.left readers.old readers.new steps.old steps.new }
    ensures behind { All (λ r. pred_of (R.list r) (R.location r) < first) readers.new }
    ensures place { result ≡ first_from (slice_index_or (map R.list readers.old) i []) first }
{
    place_from(&mut readers[i], first, steps)
}

/// The least location at or above `first` that a list has, `TOP` where none has one. Readers that stand below go on to theirs.
pub(crate) fn least_from<R: BackReader, L: Ledger>(
    readers: &mut [R],
    first: Loc,
    steps: &mut Steps<L>,
) -> Loc
    requires sound { All R.sound readers.old }
    requires behind { All (λ r. pred_of (R.list r) (R.location r) < first) readers.old }
    requires top { first ≤ TOP }
    ensures on { ReadOn R.sound R.list R.left readers.old readers.new steps.old steps.new }
    ensures behind { All (λ r. pred_of (R.list r) (R.location r) < first) readers.new }
    ensures above { first ≤ result }
    ensures least { All (λ list. result ≤ first_from list first) (map R.list readers.old) }
{
    let mut least = TOP;
    'readers: for i in 0..readers.len() {
        least = least.min(place_at(readers, i, first, steps));
    }
    least
}
