// The spans of the deleted documents, and what stands outside of them.
ghost use Rattle.std.specs.Prelude.{◌≡◌, ◌++◌, ℕ, ◌<◌, ◌≤◌, length, nat_eq, not, slice_index, slice_set, IfOk, OnOk};
ghost use Rattle.std.specs.List.{filter, list_any};
ghost use Rattle.std.specs.List.Sorted.{IsSorted};
ghost use Rattle.std.specs.Ordering.{nat_cmp};
ghost use Rattle.alta_content.specs.Rows.{IsPlaced, RowsRise};
ghost use Rattle.alta_content.specs.Spans.{SpansRise, deleted_spans, is_within, lasts_of, outside_of, span_of};

use crate::document::DocRow;
use alta_codec::Loc;
use std::alloc::{AllocError, Global};

/// The locations of a document, from the first to the last.
#[derive(Clone, Copy)]
pub struct Span {
    pub first: Loc,
    pub last: Loc,
}

impl Span {
    /// The locations of the row's document.
    pub fn of(row: &DocRow) -> Span
        requires { IsPlaced row.now }
        ensures { result ≡ span_of row.now }
    {
        Span {
            first: row.first,
            last: row.first + row.cells - 1,
        }
    }
}

/// The spans of the rows whose end is deleted, in the order of the rows.
pub fn spans_of(alloc: Global, rows: &[DocRow], deleted: &[Loc]) -> Result<Vec<Span>, AllocError>
    requires { RowsRise rows.now }
    ensures { IfOk result (λ spans. spans.items ≡ deleted_spans deleted.now rows.now) }
{
    let mut ends = Vec::from_slice(alloc, deleted)?;
    ends.sort_unstable();
    let mut spans = Vec::new(alloc);
    for row in rows {
        let span = Span::of(row);
        if has(&ends, span.last) {
            spans.push(span)?;
        }
    }
    Ok(spans)
}

/// Whether the location is one of these, which are sorted.
fn has(sorted: &[Loc], location: Loc) -> bool
    requires { IsSorted nat_cmp sorted.now }
    ensures { result ≡ list_any (λ x. nat_eq x location) sorted.now }
{
    sorted.binary_search(&location).is_ok()
}

/// Whether the location is in one of the spans.
fn within(spans: &[Span], location: Loc) -> bool
    requires { SpansRise spans.now }
    ensures { result ≡ is_within spans.now location }
{
    let i = spans.partition_point(|span| span.last < location);
    match spans.get(i) {
        Some(span) => span.first <= location,
        None => false,
    }
}

/// Leaves the rows that begin outside of the spans.
pub fn keep_rows(rows: &mut Vec<DocRow>, spans: &[Span])
    requires { SpansRise spans.now }
    ensures { rows.new.items ≡ filter (λ r. not (is_within spans.now r.first)) rows.old.items }
{
    if spans.is_empty() {
        return;
    }
    rows.retain(|row| !within(spans, row.first));
}

// The last location of a span.
fn last_at(spans: &[Span], i: usize) -> Loc
    requires { i < length spans.now }
    ensures { result ≡ slice_index (lasts_of spans.now) i }
{
    spans[i].last
}

// The first span that does not end before the location, their number where there is none. All before `from` do. It looks at
// about 2 log d spans, d being the distance from `from` to the answer.
fn first_from(spans: &[Span], from: usize, location: Loc) -> usize
    requires rising { SpansRise spans.now }
    requires within { from ≤ length spans.now }
    requires passed { (k : ℕ) → k < from → slice_index (lasts_of spans.now) k < location }
    ensures within { result ≤ length spans.now }
    ensures before { (k : ℕ) → k < result → slice_index (lasts_of spans.now) k < location }
    ensures found { result < length spans.now → location ≤ slice_index (lasts_of spans.now) result }
{
    let mut low = from;
    let mut high = from;
    'gallop: while high < spans.len() && last_at(spans, high) < location {
        low = high + 1;
        let distance = high - from;
        high = if spans.len() - low > distance {
            low + distance
        } else {
            spans.len()
        };
    }
    'halve: while low < high {
        let middle = low + (high - low) / 2;
        if last_at(spans, middle) < location {
            low = middle + 1;
        } else {
            high = middle;
        }
    }
    low
}

// Where a search for the location may begin: at `at`, or at the first span where the one before `at` does not end before the
// location.
fn start(spans: &[Span], at: usize, location: Loc) -> usize
    requires rising { SpansRise spans.now }
    requires within { at ≤ length spans.now }
    ensures within { result ≤ length spans.now }
    ensures passed { (k : ℕ) → k < result → slice_index (lasts_of spans.now) k < location }
{
    if at == 0 || last_at(spans, at - 1) < location {
        return at;
    }
    0
}

// Goes on to the first span that does not end before the location, their number where there is none. Beside rising locations
// the walk goes forward alone.
fn walk(spans: &[Span], at: usize, location: Loc) -> usize
    requires rising { SpansRise spans.now }
    requires within { at ≤ length spans.now }
    ensures within { result ≤ length spans.now }
    ensures before { (k : ℕ) → k < result → slice_index (lasts_of spans.now) k < location }
    ensures found { result < length spans.now → location ≤ slice_index (lasts_of spans.now) result }
{
    let from = start(spans, at, location);
    first_from(spans, from, location)
}

// Whether the location is in one of the spans, of which the first that does not end before it stands at `at`.
fn has_at(spans: &[Span], at: usize, location: Loc) -> bool
    requires rising { SpansRise spans.now }
    requires within { at ≤ length spans.now }
    requires before { (k : ℕ) → k < at → slice_index (lasts_of spans.now) k < location }
    requires found { at < length spans.now → location ≤ slice_index (lasts_of spans.now) at }
    ensures { result ≡ is_within spans.now location }
{
    match spans.get(at) {
        Some(span) => span.first <= location,
        None => false,
    }
}

// Puts the location at an index at a place in front of it, or leaves it there.
fn put_back(locations: &mut Vec<Loc>, place: usize, i: usize)
    requires place { place ≤ i }
    requires within { i < length locations.old.items }
    ensures { locations.new.items ≡ slice_set locations.old.items place (slice_index locations.old.items i) }
{
    if place < i {
        locations[place] = locations[i];
    }
}

/// Leaves the locations outside of the spans, which are met by a walk beside the locations. Where all are outside, none is
/// written.
pub fn keep_locations(locations: &mut Vec<Loc>, spans: &[Span])
    requires { SpansRise spans.now }
    ensures { locations.new.items ≡ outside_of spans.now locations.old.items }
{
    if spans.is_empty() {
        return;
    }
    let mut at = 0;
    let mut kept = 0;
    for i in 0..locations.len() {
        let location = locations[i];
        at = walk(spans, at, location);
        if !has_at(spans, at, location) {
            put_back(locations, kept, i);
            kept += 1;
        }
    }
    locations.truncate(kept);
}

/// Appends the locations outside of the spans, which are met by a walk beside the locations.
pub fn put_locations(
    all: &mut Vec<Loc>,
    locations: &[Loc],
    spans: &[Span],
) -> Result<(), AllocError>
    requires { SpansRise spans.now }
    ensures { OnOk result (all.new.items ≡ all.old.items ++ outside_of spans.now locations.now) }
{
    if spans.is_empty() {
        all.extend_from_slice(locations)?;
        return Ok(());
    }
    let mut at = 0;
    for location in locations {
        at = walk(spans, at, *location);
        if !has_at(spans, at, *location) {
            all.push(*location)?;
        }
    }
    Ok(())
}
