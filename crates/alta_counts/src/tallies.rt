// How many ends a reader has that were not deleted.
ghost use Rattle.std.specs.Prelude.{◌≡◌, ℕ, ◌+◌, ◌<◌, ◌≤◌, List, length, slice_index, Contains, IfOk};
ghost use Rattle.alta_codec.specs.declared.location.TheConstants.{TOP};
ghost use Rattle.alta_codec.specs.Rising.{IsRising};
ghost use Rattle.alta_counts.specs.Live.{count_live};
ghost use Rattle.alta_lead.specs.Moves.{left_of, list_of};
ghost use Rattle.alta_lead.specs.View.{chains_of};
ghost use Rattle.alta_search.specs.Leads.{IsSoundLed, led_moves};
ghost use Rattle.alta_search.specs.Walks.{IsReading, IsOnward};
ghost use Rattle.alta_search.specs.Words.{single_list, single_left};

use crate::walk::{Asking, by_kind};
use alta_codec::{Loc, Steps, TOP, index_from};
use alta_lead::LeadReader;
use alta_reader::Reader;
use alta_search::{PlanReader, SingleReader};
use std::alloc::{AllocError, Global};
use std::sync::ledger::Ledger;

/// Goes on to the first end at or above a place, and answers how many ends it passed.
fn pass<L: Ledger>(reader: &mut PlanReader<'_>, to: Loc, steps: &mut Steps<L>) -> u64
    requires stands { IsReading reader.old }
    requires top { to ≤ TOP }
    ensures onward { IsOnward reader.old reader.new steps.old steps.new }
    ensures reached { to ≤ reader.new.place }
    ensures count { (gone : List ℕ) → ((z : ℕ) → Contains gone z → reader.old.place ≤ z → to ≤ z)
        → result + count_live reader.old.list gone reader.new.place ≡ count_live reader.old.list gone reader.old.place }
{
    let mut passed = 0;
    'ends: while reader.loc() < to {
        passed += 1;
        reader.next(steps);
    }
    passed
}

/// Goes past the deleted end of this index, and answers how many ends it passed that were not deleted. The deleted ends before
/// this one lie below where the reader stands.
fn pass_gone<L: Ledger>(
    reader: &mut PlanReader<'_>,
    gone: &[Loc],
    at: usize,
    steps: &mut Steps<L>,
) -> u64
    requires stands { IsReading reader.old }
    requires gone { IsRising gone.now }
    requires at { at < length gone.now }
    requires before { (k : ℕ) → k < at → slice_index gone.now k < reader.old.place }
    ensures onward { IsOnward reader.old reader.new steps.old steps.new }
    ensures past { slice_index gone.now at < reader.new.place }
    ensures count { result + count_live reader.old.list gone.now reader.new.place
        ≡ count_live reader.old.list gone.now reader.old.place }
{
    let live = pass(reader, gone[at], steps);
    if reader.loc() == gone[at] {
        reader.next(steps);
    }
    live
}

/// How many ends the reader has that were not deleted, from where it stands on. It looks at the deleted ends beside it, and at
/// no row.
fn tally_each<L: Ledger>(reader: PlanReader<'_>, gone: &[Loc], steps: &mut Steps<L>) -> u64
    requires stands { IsReading reader }
    requires gone { IsRising gone.now }
    ensures count { result ≡ count_live reader.entry.list gone.now reader.entry.place }
    ensures steps { steps.new ≤ steps.old + reader.entry.left }
    ensures moves { steps.new ≤ steps.old + reader.entry.moves }
{
    let mut walk = reader;
    let mut live = 0;
    let mut at = 0;
    'gone: while at < gone.len() {
        live += pass_gone(&mut walk, gone, at, steps);
        at = index_from(gone, at + 1, walk.loc());
    }
    live + pass(&mut walk, TOP, steps)
}

/// The same of a reader that a word leads, by a walk over its readers without it. Fails for want of memory alone.
fn tally_led<L: Ledger>(
    alloc: Global,
    reader: LeadReader<SingleReader<'_>>,
    gone: &[Loc],
    steps: &mut Steps<L>,
) -> Result<u64, AllocError>
    requires sound { IsSoundLed reader }
    requires gone { IsRising gone.now }
    ensures count { IfOk result (λ n. n ≡ count_live (list_of single_list (chains_of reader.entry))
        gone.now reader.entry.at) }
    ensures steps { steps.new ≤ steps.old + left_of single_left (chains_of reader.entry) }
    ensures moves { steps.new ≤ steps.old + led_moves reader.entry }
{
    let at = reader.loc();
    if at == TOP {
        return Ok(0);
    }
    let (ends, words, negated, lead) = reader.into_parts();
    let walk = Asking::Led(lead);
    by_kind(
        alloc,
        walk,
        ends.into_inner(),
        words,
        negated,
        at,
        gone,
        steps,
    )
}

/// How many ends the reader has that were not deleted, from where it stands on. Where a word leads it, its readers are walked
/// over without it. Fails for want of memory alone.
pub(crate) fn tally<L: Ledger>(
    alloc: Global,
    reader: PlanReader<'_>,
    gone: &[Loc],
    steps: &mut Steps<L>,
) -> Result<u64, AllocError>
    requires stands { IsReading reader }
    requires gone { IsRising gone.now }
    ensures count { IfOk result (λ n. n ≡ count_live reader.entry.list gone.now reader.entry.place) }
    ensures steps { steps.new ≤ steps.old + reader.entry.left }
    ensures moves { steps.new ≤ steps.old + reader.entry.moves }
{
    match reader.into_led() {
        Ok(led) => tally_led(alloc, led, gone, steps),
        Err(other) => Ok(tally_each(other, gone, steps)),
    }
}
