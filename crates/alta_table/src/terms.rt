// The term part of a segment, as it is held: as it stands on the disk, with marks.
ghost use Rattle.std.specs.Prelude.{◌≡◌, ◌⊎◌, ℕ, ◌+◌, ◌-◌, ◌*◌, ◌/◌, ◌<◌, ◌≤◌, ◌^◌, Ok, [], drop, length, slice_index_or, IfOk};
ghost use Rattle.alta_format.specs.Gives.{Gives};
ghost use Rattle.alta_format.specs.Format.{AreBytes, read, part};
ghost use Rattle.alta_table.specs.Answers.{Answers};
ghost use Rattle.alta_table.specs.Marks.{AreMarked, IsHeld, StandsBefore, rows_found, rows_in};
ghost use Rattle.alta_table.specs.Terms.{terms_format};
ghost use Rattle.alta_table.specs.Walks.{behind_of, row_of};

use crate::fault::LevelFault;
use crate::marks::{Marks, STRIDE};
use crate::walk::Walk;
use alta_format::ReadFault;
use std::alloc::Global;

/// The rows of a term part as they stand on the disk, each behind the one before, and marks from which a row is reached in a few steps.
#[derive(Drop)]
pub struct HeldTerms {
    /// How many rows there are.
    pub count: usize,
    /// How many bytes of the segment stand behind its tables.
    pub room: u64,
    pub bytes: Vec<u8>,
    pub marks: Marks,
}

// The marks of so many rows, which are all of the bytes, and how much of the room no stream or summary takes.
// A row takes six bytes at least, so no false count takes more memory than the part. The terms beside the marks keep no room to grow.
fn marks_of(alloc: Global, count: u64, room: u64, bytes: &[u8]) -> Result<(Marks, u64), ReadFault>
    ensures gives { Gives (λ x. ((rows_found (read (terms_format count room) bytes.now), x.1), [])) result
        (read (terms_format count room) bytes.now) }
    ensures marked { IfOk result (λ x. AreMarked count room bytes.now x.0.heads.items x.0.marks.items) }
{
    let most = (bytes.len() as u64 / 6).min(count) as usize;
    let mut marks = Marks::with_capacity(alloc, most)?;
    let mut walk = Walk::new(bytes, &[], room);
    for row in 0..count {
        marks.note(row, bytes, &walk)?;
        match walk.step() {
            Ok(()) => {}
            Err(fault) => return Err(fault),
        }
    }
    if !walk.rest.is_empty() {
        return Err(ReadFault::Broken(walk.rest.len()));
    }
    marks.heads.shrink_to_fit();
    Ok((marks, walk.left))
}

// The marks of a term part that begins at a place of the disk, and how much of the room no stream or summary takes.
fn read_marks(
    alloc: Global,
    count: u64,
    room: u64,
    bytes: &[u8],
    place: u64,
) -> Result<(Marks, u64), LevelFault>
    requires { place + length bytes.now < 2 ^ 64 }
    ensures exact { Answers (λ x. (rows_found (read (terms_format count room) bytes.now), x.1)) result
        (part (terms_format count room) bytes.now place) }
    ensures reads { IfOk result (λ x. read (terms_format count room) bytes.now
        ≡ Ok ((rows_found (read (terms_format count room) bytes.now), x.1), [])) }
    ensures marked { IfOk result (λ x. AreMarked count room bytes.now x.0.heads.items x.0.marks.items) }
    ensures fits { AreBytes bytes.now }
{
    match marks_of(alloc, count, room, bytes) {
        Ok(found) => Ok(found),
        Err(ReadFault::Memory) => Err(LevelFault::Memory),
        Err(ReadFault::Broken(left)) => {
            Err(LevelFault::Damaged(place + (bytes.len() - left) as u64))
        }
    }
}

// What stands behind the first `from` bytes, in the memory of all.
fn behind(bytes: Vec<u8>, from: usize) -> Vec<u8>
    requires { from ≤ length bytes.items }
    ensures { result.items ≡ drop from bytes.items }
{
    let mut bytes = bytes;
    let left = bytes.len() - from;
    bytes.copy_within(from.., 0);
    bytes.truncate(left);
    bytes.shrink_to_fit();
    bytes
}

/// The rows of the term part that ends these tables, and begins behind their first `from` bytes and at a place of the disk. And how
/// many bytes no stream or summary takes of the `room` bytes that stand behind the tables. The memory of what
/// stands in front of the part is given back.
pub fn read_terms(
    alloc: Global,
    count: u64,
    room: u64,
    tables: Vec<u8>,
    from: usize,
    place: u64,
) -> Result<(HeldTerms, u64), LevelFault>
    requires inside { from ≤ length tables.items }
    requires below { place + (length tables.items - from) < 2 ^ 64 }
    ensures exact { Answers (λ x. (rows_in x.0, x.1)) result
        (part (terms_format count room) (drop from tables.items) place) }
    ensures held { IfOk result (λ x. IsHeld x.0 x.1) }
    ensures room { IfOk result (λ x. x.0.room ≡ room) }
{
    let (marks, left) = read_marks(alloc, count, room, &tables[from..], place)?;
    let bytes = behind(tables, from);
    let terms = HeldTerms {
        count: count as usize,
        room,
        bytes,
        marks,
    };
    Ok((terms, left))
}

impl HeldTerms {
    /// A walk before the row of a mark. Before the first row a walk begins also where there is no mark.
    pub fn walk_from(&self, mark: usize) -> Walk<'_>
        requires held { IsHeld self.now 0 }
        requires mark { (mark ≡ 0) ⊎ (mark < length self.now.marks.marks.items) }
        ensures stands { StandsBefore self.now (mark * 16) (behind_of result) result.rest.now }
        ensures short { result.len ≤ 129 }
    {
        match self.marks.marks.get(mark) {
            Some(found) => Walk::new(&self.bytes[found.at..], self.marks.head(found), found.left),
            None => Walk::new(&self.bytes, &[], self.room),
        }
    }

    /// A walk that has passed a row.
    pub fn walk_behind(&self, row: usize) -> Walk<'_>
        requires held { IsHeld self.now 0 }
        requires row { row < length (rows_in self.now) }
        ensures stands { StandsBefore self.now (row + 1) (behind_of result) result.rest.now }
        ensures row { row_of result ≡ slice_index_or (rows_in self.now) row (row_of result) }
        ensures short { result.len ≤ 129 }
    {
        let mark = row / STRIDE;
        let mut walk = self.walk_from(mark);
        for _ in 0..row % STRIDE {
            walk.pass();
        }
        walk.pass();
        walk
    }
}
