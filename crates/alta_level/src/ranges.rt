// Locations and the ranges of documents.
ghost use Rattle.std.specs.Prelude.{◌≡◌, ◌↔◌, ℕ, ◌+◌, ◌<◌, ◌≤◌, true, false, length, slice_index, None, IfSome, IsTrue, MatchOption};
ghost use Rattle.alta_codec.specs.Rising.{IsRising};
ghost use Rattle.alta_level.specs.Stored.{AreApart, Fits};
ghost use Rattle.alta_content.specs.Lists.{end_term};
ghost use Rattle.alta_content.specs.Rows.{AreDocuments, firsts_of};
ghost use Rattle.alta_content.specs.Runs.{IsInRun, RunsRise};
ghost use Rattle.alta_level.specs.Fitting.{AreEndsTo, AreFitting, AreInRunsTo, HasOther, HasOutside};

use crate::ends::end_from;
use alta_codec::Loc;
use alta_content::{LevelRows, Runs};
use std::convert::AsSlice;

// The location of the first cell of a document.
pub(crate) fn first_at(documents: &LevelRows, row: usize) -> Loc
    requires { row < length documents.now }
    ensures { result ≡ slice_index (firsts_of documents.now) row }
{
    documents.as_slice()[row].first
}

// The first location of a run.
fn run_first(runs: &Runs, run: usize) -> Loc
    requires { run < length runs.now.firsts.items }
    ensures { result ≡ slice_index runs.now.firsts.items run }
{
    runs.firsts[run]
}

/// The run that holds a location, from a run on, None where there is none.
pub fn holder(runs: &Runs, from: usize, location: Loc) -> Option<usize>
    requires rise { RunsRise runs.now.firsts.items runs.now.ends.items }
    requires within { from ≤ length runs.now.ends.items }
    requires passed { (i : ℕ) → i < from → slice_index runs.now.ends.items i < location }
    ensures held { MatchOption result (IsInRun runs.now.firsts.items runs.now.ends.items location
        → ⊥) (λ run. IsInRun runs.now.firsts.items runs.now.ends.items location) }
    ensures within { MatchOption result (Unit {0}) (λ run. run < length runs.now.ends.items) }
    ensures passed { MatchOption result (Unit {0}) (λ run. (i : ℕ) → i < run
        → slice_index runs.now.ends.items i < location) }
{
    let run = end_from(&runs.ends, from, location);
    if run == runs.ends.len() {
        return None;
    }
    if location < run_first(runs, run) {
        return None;
    }
    Some(run)
}

/// The run of the last location from a run on, where each location of a rising list lies in a run.
pub fn ranges_from(runs: &Runs, from: usize, locations: &[Loc]) -> Option<usize>
    requires rise { RunsRise runs.now.firsts.items runs.now.ends.items }
    requires within { from ≤ length runs.now.ends.items }
    requires rising { IsRising locations.now }
    requires passed { (i k : ℕ) → i < from → k < length locations.now
        → slice_index runs.now.ends.items i < slice_index locations.now k }
    ensures { MatchOption result (HasOutside runs.now.firsts.items runs.now.ends.items locations.now)
        (AreInRunsTo runs.now.firsts.items runs.now.ends.items locations.now) }
{
    let mut run = from;
    for location in locations {
        match holder(runs, run, *location) {
            Some(here) => run = here,
            None => return None,
        }
    }
    Some(run)
}

// The row behind the last location, where the locations are the ends of the documents from a row on.
fn ends_from(documents: &LevelRows, from: usize, locations: &[Loc]) -> Option<usize>
    requires apart { AreApart documents.now }
    requires within { from ≤ length documents.now }
    ensures { MatchOption result (HasOther documents.now from locations.now)
        (AreEndsTo documents.now from locations.now) }
{
    let ends = documents.ends();
    if locations.len() > ends.len() - from {
        return None;
    }
    for i in 0..locations.len() {
        if locations[i] != ends[from + i] {
            return None;
        }
    }
    Some(from + locations.len())
}

/// Goes on beside the ends of the documents from a row, which is none where a location was not the end before: the row where it goes
/// on, none where these locations are not the ends.
pub fn ends_after(documents: &LevelRows, row: Option<usize>, locations: &[Loc]) -> Option<usize>
    requires apart { AreApart documents.now }
    requires within { IfSome row (λ from. from ≤ length documents.now) }
    ensures none { row ≡ None → result ≡ None }
    ensures ends { IfSome row (λ from. MatchOption result (HasOther documents.now from locations.now)
        (AreEndsTo documents.now from locations.now)) }
{
    let Some(from) = row else {
        return None;
    };
    ends_from(documents, from, locations)
}

/// Whether all locations were the ends of the documents up to this row, and no end is missing.
pub fn are_all_ends(documents: &LevelRows, row: Option<usize>) -> bool
    ensures { MatchOption row (result ≡ false) (λ at. (result ≡ true) ↔ (at ≡ length documents.now)) }
{
    match row {
        Some(at) => at == documents.len(),
        None => false,
    }
}

/// Whether all locations up to this run lie in runs.
pub fn are_all_held(run: Option<usize>) -> bool
    ensures { MatchOption run (result ≡ false) (λ at. result ≡ true) }
{
    match run {
        Some(_at) => true,
        None => false,
    }
}

/// Whether it is the term `D`, which stands at the end of each document.
pub fn is_end_term(term: &[u8]) -> bool
    ensures { IsTrue result ↔ term.now ≡ end_term }
{
    term == b"D".as_slice()
}

// Whether the locations are the ends of the documents.
fn are_ends(documents: &LevelRows, locations: &[Loc]) -> bool
    requires { AreDocuments documents.now }
    ensures { IsTrue result ↔ AreFitting documents.now true locations.now }
{
    are_all_ends(documents, ends_from(documents, 0, locations))
}

// Whether each location of a rising list lies in the range of a document.
fn are_in_ranges(documents: &LevelRows, locations: &[Loc]) -> bool
    requires documents { AreDocuments documents.now }
    requires rising { IsRising locations.now }
    ensures { IsTrue result ↔ AreFitting documents.now false locations.now }
{
    are_all_held(ranges_from(documents.runs(), 0, locations))
}

/// Whether the locations of a term are as many as its row states, lie in the ranges of documents, and, of the term `D`,
/// are the ends of the documents.
pub fn fits(documents: &LevelRows, term: &[u8], count: u64, locations: &[Loc]) -> bool
    requires documents { AreDocuments documents.now }
    requires rising { IsRising locations.now }
    ensures { IsTrue result ↔ Fits documents.now term.now count locations.now }
{
    if locations.len() as u64 != count {
        return false;
    }
    if is_end_term(term) {
        are_ends(documents, locations)
    } else {
        are_in_ranges(documents, locations)
    }
}
