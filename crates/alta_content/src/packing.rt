// Rows and gaps of lists, as bytes.
// Packed, the lists of a content take about as many bytes as on the disk; lists of numbers took eight a location, and more than a
// hundred a term. A gap goes around the end of the numbers, so that no list has to rise. The price: each location is spelled and
// read once more for each content that it passes through, unless its list is copied as it is held.
ghost use Rattle.std.specs.Prelude.{◌≡◌, ◌≤◌, ◌<◌, ◌^◌, ◌++◌, ℕ, List, drop, take, length, is_ok, if◌then◌else◌, OnOk};
ghost use Rattle.std.specs.List.{All};
ghost use Rattle.alta_codec.specs.Numbers.{number_bytes};
ghost use Rattle.alta_content.specs.Packed.{gaps_bytes, last_behind, locations_in, leading_number, row_in};

use alta_codec::{Loc, get_number, put_number};
use std::alloc::AllocError;

// What stands in a row behind its term.
#[derive(Clone, Copy)]
pub(crate) struct RowAt {
    // How many locations the term has.
    pub count: u64,
    // How many bytes their gaps have.
    pub gaps: u64,
    // The place behind the row.
    pub behind: usize,
}

// The number at a place, and the place behind it; 0 and the end where no number is spelled.
fn number_at(bytes: &[u8], at: usize) -> (u64, usize)
    requires { at ≤ length bytes.now }
    ensures number { result.0 ≡ (leading_number (drop at bytes.now)).0 }
    ensures behind { drop result.1 bytes.now ≡ (leading_number (drop at bytes.now)).1 }
    ensures within { result.1 ≤ length bytes.now }
{
    match get_number(&bytes[at..], 0) {
        Ok((number, len)) => (number, at + len),
        Err(_) => (0, bytes.len()),
    }
}

// The term of the row at a place, and the place behind it.
pub(crate) fn term_at(rows: &[u8], at: usize) -> (&[u8], usize)
    requires { at ≤ length rows.now }
    ensures term { result.0.now ≡ (row_in (drop at rows.now)).term }
    ensures behind { drop result.1 rows.now
        ≡ drop (leading_number (drop at rows.now)).0 (leading_number (drop at rows.now)).1 }
    ensures within { result.1 ≤ length rows.now }
{
    let (size, from) = number_at(rows, at);
    let size = (size as usize).min(rows.len() - from);
    (&rows[from..from + size], from + size)
}

// What stands in the row at a place behind its term.
pub(crate) fn row_at(rows: &[u8], at: usize) -> RowAt
    requires { at ≤ length rows.now }
    ensures count { result.count ≡ (row_in (drop at rows.now)).count }
    ensures gaps { result.gaps ≡ (row_in (drop at rows.now)).gaps }
    ensures behind { drop result.behind rows.now ≡ (row_in (drop at rows.now)).behind }
    ensures within { result.behind ≤ length rows.now }
{
    let (_term, numbers) = term_at(rows, at);
    let (count, next) = number_at(rows, numbers);
    let (gaps, behind) = number_at(rows, next);
    RowAt {
        count,
        gaps,
        behind,
    }
}

// Appends the row of a term with so many locations, whose gaps have so many bytes. Where memory is wanting, nothing is appended.
pub(crate) fn put_row(
    rows: &mut Vec<u8>,
    term: &[u8],
    count: u64,
    gaps: usize,
) -> Result<(), AllocError>
    ensures { rows.new.items ≡ (if is_ok result then rows.old.items
        ++ (number_bytes (length term.now) ++ (term.now ++ (number_bytes count ++ number_bytes gaps)))
        else rows.old.items) }
{
    let start = rows.len();
    let done = append_row(rows, term, count, gaps);
    if done.is_err() {
        rows.truncate(start);
    }
    done
}

// The same, where on want of memory a part may be appended.
fn append_row(rows: &mut Vec<u8>, term: &[u8], count: u64, gaps: usize) -> Result<(), AllocError>
    ensures row { OnOk result (rows.new.items
        ≡ rows.old.items ++ (number_bytes (length term.now)
        ++ (term.now ++ (number_bytes count ++ number_bytes gaps)))) }
    ensures front { take (length rows.old.items) rows.new.items ≡ rows.old.items }
{
    put_number(rows, term.len() as u64)?;
    rows.extend_from_slice(term)?;
    put_number(rows, count)?;
    put_number(rows, gaps as u64)
}

// Appends the gaps of locations. Where memory is wanting, nothing is appended.
pub(crate) fn put_gaps(gaps: &mut Vec<u8>, locations: &[Loc]) -> Result<(), AllocError>
    ensures { gaps.new.items ≡ (if is_ok result then gaps.old.items ++ gaps_bytes 0 locations.now else gaps.old.items) }
{
    let start = gaps.len();
    let done = append_gaps(gaps, locations);
    if done.is_err() {
        gaps.truncate(start);
    }
    done
}

// The same, where on want of memory a part may be appended.
fn append_gaps(gaps: &mut Vec<u8>, locations: &[Loc]) -> Result<(), AllocError>
    ensures gaps { OnOk result (gaps.new.items ≡ gaps.old.items ++ gaps_bytes 0 locations.now) }
    ensures front { take (length gaps.old.items) gaps.new.items ≡ gaps.old.items }
{
    let mut before: u64 = 0;
    for location in locations {
        put_number(gaps, location.wrapping_sub(before))?;
        before = *location;
    }
    Ok(())
}

// Appends so many locations, whose gaps begin at a place.
pub(crate) fn put_locations_at(
    all: &mut Vec<Loc>,
    gaps: &[u8],
    place: usize,
    count: u64,
) -> Result<(), AllocError>
    requires { place ≤ length gaps.now }
    ensures { OnOk result (all.new.items ≡ all.old.items ++ locations_in count 0 (drop place gaps.now)) }
{
    let mut at = place;
    let mut location: u64 = 0;
    for _ in 0..count {
        let (gap, behind) = number_at(gaps, at);
        location = location.wrapping_add(gap);
        at = behind;
        all.push(location)?;
    }
    Ok(())
}

// Appends the gaps of locations behind one, from their gaps behind 0: the first number alone differs. Where memory is wanting, nothing
// is appended.
pub(crate) fn put_behind(all: &mut Vec<u8>, before: Loc, gaps: &[u8]) -> Result<(), AllocError>
    ensures { (locations : List ℕ) → gaps.now ≡ gaps_bytes 0 locations → All (λ x. x < 2 ^ 64) locations
        → all.new.items ≡ (if is_ok result then all.old.items ++ gaps_bytes before locations else all.old.items) }
{
    let start = all.len();
    let done = append_behind(all, before, gaps);
    if done.is_err() {
        all.truncate(start);
    }
    done
}

// The same, where on want of memory a part may be appended.
fn append_behind(all: &mut Vec<u8>, before: Loc, gaps: &[u8]) -> Result<(), AllocError>
    ensures gaps { (locations : List ℕ) → gaps.now ≡ gaps_bytes 0 locations → All (λ x. x < 2 ^ 64) locations
        → OnOk result (all.new.items ≡ all.old.items ++ gaps_bytes before locations) }
    ensures front { take (length all.old.items) all.new.items ≡ all.old.items }
{
    if gaps.is_empty() {
        return Ok(());
    }
    let (first, behind) = number_at(gaps, 0);
    put_number(all, first.wrapping_sub(before))?;
    let (_first, rest) = gaps.split_at(behind);
    all.extend_from_slice(rest)?;
    Ok(())
}

// The last of so many locations behind one, whose gaps begin at a place; that one where there are none.
pub(crate) fn last_at(gaps: &[u8], place: usize, before: Loc, count: u64) -> Loc
    requires { place ≤ length gaps.now }
    ensures { result ≡ last_behind before (locations_in count before (drop place gaps.now)) }
{
    let mut at = place;
    let mut location = before;
    for _ in 0..count {
        let (gap, behind) = number_at(gaps, at);
        location = location.wrapping_add(gap);
        at = behind;
    }
    location
}
