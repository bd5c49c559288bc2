// The walk over a list.
ghost use Rattle.std.specs.Prelude.{◌≡◌, ℕ, ◌+◌, ◌<◌, ◌≤◌, ◌==◌, if◌then◌else◌, length, slice_index, slice_index_or};
ghost use Rattle.alta_codec.specs.Rising.{first_from};
ghost use Rattle.alta_codec.specs.declared.location.TheConstants.{TOP};
ghost use Rattle.alta_gather.specs.Holding.{IsMarked, with_list};
ghost use Rattle.alta_gather.specs.Runs.{AreRuns, places_in};
ghost use Rattle.alta_gather.specs.declared.held.Held.{Held};

use crate::packed::{ListIndex, PackedHeld};
use crate::places::{Places, Run};
use alta_codec::{Loc, Steps, TOP, index_from};
use alta_reader::Reader;
use std::sync::ledger::Ledger;

/// Marks the places of a list among these: `held` has for each of them which of the lists before have it. The reader moves once
/// from each location of its list; it was not moved before.
pub fn mark<R: Reader, L: Ledger>(
    held: &mut [PackedHeld],
    places: &Places,
    reader: &mut R,
    list: ListIndex,
    steps: &mut Steps<L>,
)
    requires paired { length held.old ≡ length places.now }
    requires sound { R.sound reader.old }
    requires unmoved { R.location reader.old ≡ first_from (R.list reader.old) 0 }
    ensures sound { R.sound reader.new }
    ensures kept { R.list reader.new ≡ R.list reader.old }
    ensures marked { IsMarked places.now (R.list reader.old) list held.old held.new }
    ensures steps { steps.new + R.left reader.new ≤ steps.old + R.left reader.old }
{
    mark_runs(held, &places.lasts, &places.runs, reader, list, steps);
}

// Marks the places of a list among those of runs.
fn mark_runs<R: Reader, L: Ledger>(
    held: &mut [PackedHeld],
    lasts: &[Loc],
    runs: &[Run],
    reader: &mut R,
    list: ListIndex,
    steps: &mut Steps<L>,
)
    requires runs { AreRuns 0 0 lasts.now runs.now }
    requires paired { length held.old ≡ length (places_in lasts.now runs.now) }
    requires sound { R.sound reader.old }
    requires unmoved { R.location reader.old ≡ first_from (R.list reader.old) 0 }
    ensures sound { R.sound reader.new }
    ensures kept { R.list reader.new ≡ R.list reader.old }
    ensures marked { IsMarked (places_in lasts.now runs.now) (R.list reader.old) list held.old held.new }
    ensures steps { steps.new + R.left reader.new ≤ steps.old + R.left reader.old }
{
    let mut from = 0;
    'locations: while reader.loc() < TOP {
        from = note(held, lasts, runs, from, reader.loc(), list);
        reader.next(steps);
    }
}

// Notes that the list has the location `at`, and answers the first run that does not end below it. All runs before `from` do.
fn note(
    held: &mut [PackedHeld],
    lasts: &[Loc],
    runs: &[Run],
    from: usize,
    at: Loc,
    list: ListIndex,
) -> usize
    requires runs { AreRuns 0 0 lasts.now runs.now }
    requires paired { length held.old ≡ length (places_in lasts.now runs.now) }
    requires within { from ≤ length lasts.now }
    requires passed { (k : ℕ) → k < from → slice_index lasts.now k < at }
    ensures within { result ≤ length lasts.now }
    ensures passed { (k : ℕ) → k < result → slice_index lasts.now k < at }
    ensures noted { (i : ℕ) (d : Held) → i < length (places_in lasts.now runs.now)
        → slice_index_or held.new i d ≡ (if slice_index (places_in lasts.now runs.now) i == at then with_list list
        (slice_index_or held.old i d) else slice_index_or held.old i d) }
{
    let at_run = index_from(lasts, from, at);
    if at_run == lasts.len() {
        return at_run;
    }
    let run = runs[at_run];
    if at < run.first {
        return at_run;
    }
    let index = run.before + (at - run.first) as usize;
    held[index] = held[index].with(list);
    at_run
}
