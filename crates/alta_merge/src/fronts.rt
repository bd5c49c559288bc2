// The term that comes next of the lists that are left of each content, and what it takes of them.
ghost use Rattle.std.specs.Prelude.{◌≡◌, ◌+◌, ◌<◌, ◌++◌, ℕ, List, [], false, length, flat_map, slice_index_or, slice_set, IsTrue, MatchOption, IfOk, OnOk, OnErr};
ghost use Rattle.alta_content.specs.Fronts.{front_term};
ghost use Rattle.alta_content.specs.Packed.{Appends, AreGaps};
ghost use Rattle.alta_content.specs.Spans.{SpansRise};
ghost use Rattle.alta_merge.specs.Besides.{IsMerged};
ghost use Rattle.alta_merge.specs.Fronts.{AreNext, IsFirstLeft, NoneLeft, begins, behind, behind_next, front_of, if_some, next_list, next_term, whole_list};

use alta_codec::Loc;
use alta_content::{PackedList, PackedLocations, Span, TermLists, keep_locations};
use std::alloc::AllocError;
use std::cmp::Ordering;

/// The rests that begin with the least term, by the first and the last of them.
#[derive(Clone, Copy)]
pub struct Next {
    pub first: usize,
    pub last: usize,
}

// The first term that is left, empty where there is none.
fn term_of(rest: &TermLists) -> &[u8]
    ensures { result.now ≡ front_term rest.now }
{
    match rest.first() {
        Some(term) => term,
        None => &[],
    }
}

// Whether the first term that is left is this one.
fn begins(rest: &TermLists, term: &[u8]) -> bool
    ensures { result ≡ begins term.now rest.now }
{
    match rest.first() {
        Some(own) => term == own,
        None => false,
    }
}

// The first rest that has a list, None where no list is left.
fn first_left(rests: &[TermLists]) -> Option<usize>
    ensures { MatchOption result (NoneLeft rests.now (length rests.now)) (IsFirstLeft rests.now) }
{
    for i in 0..rests.len() {
        if rests[i].first().is_some() {
            return Some(i);
        }
    }
    None
}

// Those that begin with the least term, and that term, of one rest more than before.
fn with_rest<'a>(rests: &'a [TermLists], i: usize, next: Next, least: &'a [u8]) -> (Next, &'a [u8])
    requires within { i < length rests.now }
    requires next { AreNext rests.now i next.first next.last }
    requires least { least.now ≡ next_term rests.now next.first }
    ensures next { AreNext rests.now (i + 1) result.0.first result.0.last }
    ensures least { result.1.now ≡ next_term rests.now result.0.first }
{
    let Some(term) = rests[i].first() else {
        return (next, least);
    };
    match least.cmp(term) {
        Ordering::Greater => (Next { first: i, last: i }, term),
        Ordering::Equal => {
            let more = Next {
                first: next.first,
                last: i,
            };
            (more, least)
        }
        Ordering::Less => (next, least),
    }
}

// Those that begin with the least term, where this one is the first that has a list.
fn next_from(rests: &[TermLists], first: usize) -> Next
    requires { IsFirstLeft rests.now first }
    ensures { AreNext rests.now (length rests.now) result.first result.last }
{
    let mut next = Next { first, last: first };
    let mut least = term_of(&rests[first]);
    for i in first + 1..rests.len() {
        (next, least) = with_rest(rests, i, next, least);
    }
    next
}

/// The rests that begin with the least term, None where no list is left.
pub fn next_of(rests: &[TermLists]) -> Option<Next>
    ensures { MatchOption result (NoneLeft rests.now (length rests.now))
        (λ next. AreNext rests.now (length rests.now) next.first next.last) }
{
    match first_left(rests) {
        Some(first) => Some(next_from(rests, first)),
        None => None,
    }
}

// Appends the locations of the first term that is left, if it is this one.
fn put_front(all: &mut Vec<Loc>, rest: &TermLists, term: &[u8]) -> Result<(), AllocError>
    ensures { OnOk result (all.new.items ≡ all.old.items ++ front_of term.now rest.now) }
{
    if begins(rest, term) {
        rest.put_first(all)?;
    }
    Ok(())
}

// The locations of the next term in place of what was there, of all rests that begin with it, one behind the other.
fn gather(all: &mut Vec<Loc>, rests: &[TermLists], next: Next) -> Result<(), AllocError>
    requires { AreNext rests.now (length rests.now) next.first next.last }
    ensures { OnOk result (all.new.items ≡ flat_map (front_of (next_term rests.now next.first)) rests.now) }
{
    all.clear();
    rests[next.first].put_first(all)?;
    let term = term_of(&rests[next.first]);
    for i in next.first + 1..next.last + 1 {
        put_front(all, &rests[i], term)?;
    }
    Ok(())
}

// The same of packed locations: no list is unpacked.
fn put_front_packed(
    all: &mut PackedLocations,
    rest: &TermLists,
    term: &[u8],
) -> Result<(), AllocError>
    ensures put { OnOk result (all.new ≡ all.old ++ front_of term.now rest.now) }
{
    if begins(rest, term) {
        all.put(rest.first_packed())?;
    }
    Ok(())
}

// The same of packed locations.
fn gather_packed(
    all: &mut PackedLocations,
    rests: &[TermLists],
    next: Next,
) -> Result<(), AllocError>
    requires { AreNext rests.now (length rests.now) next.first next.last }
    ensures { OnOk result (all.new ≡ flat_map (front_of (next_term rests.now next.first)) rests.now) }
{
    all.clear();
    all.put(rests[next.first].first_packed())?;
    let term = term_of(&rests[next.first]);
    for i in next.first + 1..next.last + 1 {
        put_front_packed(all, &rests[i], term)?;
    }
    Ok(())
}

// Adds a term with its locations at the end, unless it has none. Where memory is wanting the lists stay.
fn put_some(made: &mut TermLists, term: &[u8], locations: &[Loc]) -> Result<(), AllocError>
    ensures { Appends (if_some (record { term = term.now; locations = locations.now })) made.old made.new result }
{
    if locations.is_empty() {
        return Ok(());
    }
    made.put(term, locations)
}

// The same of packed locations.
fn put_some_packed(
    made: &mut TermLists,
    term: &[u8],
    list: PackedList<'_>,
) -> Result<(), AllocError>
    requires { (locations : List ℕ) × AreGaps list.gaps.now list.count locations }
    ensures { (locations : List ℕ) → AreGaps list.entry.gaps.now list.entry.count locations
        → Appends (if_some (record { term = term.now; locations = locations })) made.old made.new result }
{
    if list.count == 0 {
        return Ok(());
    }
    made.put_spelled(term, list.count, list.gaps)
}

// Adds the next term with all its locations, unless there are none. The list of a rest that alone begins with it is copied as it is
// held. Others are gathered in `room`, in place of what was there. Where memory is wanting the lists stay.
fn put_whole(
    made: &mut TermLists,
    rests: &[TermLists],
    room: &mut PackedLocations,
    next: Next,
) -> Result<(), AllocError>
    requires { AreNext rests.now (length rests.now) next.first next.last }
    ensures { Appends (if_some (whole_list rests.now next.first)) made.old made.new result }
{
    let term = term_of(&rests[next.first]);
    if next.first == next.last {
        return put_some_packed(made, term, rests[next.first].first_packed());
    }
    gather_packed(room, rests, next)?;
    put_some_packed(made, term, room.as_list())
}

// Adds the next term with its locations outside of the spans, unless there are none. They are gathered in `room`, in place of what was
// there. Where memory is wanting the lists stay.
fn put_outside(
    made: &mut TermLists,
    rests: &[TermLists],
    room: &mut Vec<Loc>,
    next: Next,
    spans: &[Span],
) -> Result<(), AllocError>
    requires rising { SpansRise spans.now }
    requires next { AreNext rests.now (length rests.now) next.first next.last }
    ensures { Appends (if_some (next_list spans.now rests.now next.first)) made.old made.new result }
{
    gather(room, rests, next)?;
    keep_locations(room, spans);
    put_some(made, term_of(&rests[next.first]), room)
}

/// Where the locations of a term are gathered, the same room for each term.
#[derive(Drop)]
pub struct Room {
    /// Where they are packed.
    pub packed: PackedLocations,
    /// Where they are not.
    pub locations: Vec<Loc>,
}

// Adds the next term with its locations outside of the spans, unless there are none. Where memory is wanting the lists stay.
fn put_next(
    made: &mut TermLists,
    rests: &[TermLists],
    room: &mut Room,
    next: Next,
    spans: &[Span],
) -> Result<(), AllocError>
    requires rising { SpansRise spans.now }
    requires next { AreNext rests.now (length rests.now) next.first next.last }
    ensures { Appends (if_some (next_list spans.now rests.now next.first)) made.old made.new result }
{
    if spans.is_empty() {
        return put_whole(made, rests, &mut room.packed, next);
    }
    put_outside(made, rests, &mut room.locations, next, spans)
}

// Drops the first term of a rest if the one at `next` begins with it too.
fn skip_same(rests: &mut [TermLists], i: usize, next: usize)
    requires within { i < length rests.old }
    requires next { next < length rests.old }
    ensures { rests.new ≡ slice_set rests.old i (behind (next_term rests.old next) (slice_index_or rests.old i [])) }
{
    if begins(&rests[i], term_of(&rests[next])) {
        rests[i].skip();
    }
}

// Drops the next term of all that begin with it, the first of them last.
fn skip_all(rests: &mut [TermLists], next: Next)
    requires { AreNext rests.old (length rests.old) next.first next.last }
    ensures { rests.new ≡ behind_next rests.old next.first }
{
    for i in (next.first + 1..next.last + 1).rev() {
        skip_same(rests, i, next.first);
    }
    rests[next.first].skip();
}

/// Merges the next term: appends it with all its locations outside of the spans, unless there are none, and drops it from the
/// rests. Where memory is wanting, nothing is taken. Where there is no span, no list is unpacked.
pub fn merge_next(
    made: &mut TermLists,
    rests: &mut [TermLists],
    room: &mut Room,
    next: Next,
    spans: &[Span],
) -> Result<(), AllocError>
    requires rising { SpansRise spans.now }
    requires next { AreNext rests.old (length rests.old) next.first next.last }
    ensures made { OnOk result (made.new ≡ made.old ++ if_some (next_list spans.now rests.old next.first)) }
    ensures left { OnOk result (rests.new ≡ behind_next rests.old next.first) }
    ensures kept { OnErr result (made.new ≡ made.old) }
    ensures rests_kept { OnErr result (rests.new ≡ rests.old) }
{
    put_next(made, rests, room, next, spans)?;
    skip_all(rests, next);
    Ok(())
}

/// Merges the term that comes next, as a [`crate::Job`] does, and answers whether there was one. Where there was none, all lists are as
/// they were, and none is left.
pub fn merge_first(
    made: &mut TermLists,
    rests: &mut [TermLists],
    room: &mut Room,
    spans: &[Span],
) -> Result<bool, AllocError>
    requires { SpansRise spans.now }
    ensures merged { IfOk result (λ some. IsTrue some → IsMerged spans.now made.old rests.old made.new rests.new) }
    ensures none { IfOk result (λ some. some ≡ false → NoneLeft rests.old (length rests.old)) }
    ensures made { IfOk result (λ some. some ≡ false → made.new ≡ made.old) }
    ensures rests { IfOk result (λ some. some ≡ false → rests.new ≡ rests.old) }
{
    let Some(next) = next_of(rests) else {
        return Ok(false);
    };
    merge_next(made, rests, room, next, spans)?;
    Ok(true)
}
