// A summary: opened, read row by row, and searched.
ghost use Rattle.std.specs.Prelude.{◌≡◌, ℕ, ◌+◌, ◌-◌, ◌*◌, ◌<◌, ◌≤◌, IfOk, IfErr, IsOk};
ghost use Rattle.alta_postings.specs.Table.{field_at, IsSummary, IsFault};

use crate::field::{count_of, field, keeps};
use crate::search::{group_from, row_from};
use std::marker::Model;

/// One block: its first and its last location, and the place of its first number.
#[derive(Clone, Copy, Debug, PartialEq, Eq, Drop)]
pub struct Row {
    pub first: u64,
    pub last: u64,
    pub place: u64,
}

/// The first field that breaks a rule, or the end where the length is wrong.
#[derive(Clone, Copy, Debug, PartialEq, Eq, Drop)]
pub struct SummaryFault {
    pub place: usize,
}

/// Bytes that are a table of rows, borrowed. Contracts see the bytes and how many rows they have.
#[derive(Drop)]
pub struct Summary<'a> {
    bytes: &'a [u8],
    count: usize,
}

impl<'a> Model for Summary<'a> {
    ghost use Rattle.alta_postings.specs.Table.{Table, IsSummary};

    ghost Value = { Table };

    ghost view = { λ s. record { bytes = s.bytes.now; count = s.count } };

    ghost invariant = { λ s. IsSummary s.bytes.now s.count };
}

impl<'a> Summary<'a> {
    /// Reads the whole, and keeps it only if it is a table.
    pub fn open(bytes: &'a [u8]) -> Result<Summary<'a>, SummaryFault>
        ensures found { IfOk result (λ summary. (summary.bytes ≡ bytes.now) × IsSummary bytes.now summary.count) }
        ensures never { (b : ℕ) → IsSummary bytes.now b → IsOk result }
        ensures first { IfErr result (λ fault. IsFault bytes.now fault.place) }
    {
        let Some(count) = count_of(bytes.len()) else {
            return Err(SummaryFault { place: bytes.len() });
        };
        let fields = bytes.len() / 8;
        for k in 0..fields {
            if !keeps(bytes, count, k) {
                return Err(SummaryFault { place: 8 * k });
            }
        }
        Ok(Summary { bytes, count })
    }

    /// Bytes that are known to be a table.
    pub fn of(bytes: &'a [u8]) -> Summary<'a>
        requires { (b : ℕ) × IsSummary bytes.now b }
        ensures bytes { result.bytes ≡ bytes.now }
        ensures count { (b : ℕ) → IsSummary bytes.now b → result.count ≡ b }
    {
        let count = count_of(bytes.len()).unwrap_or(0);
        Summary { bytes, count }
    }

    /// How many rows there are.
    pub fn rows(&self) -> usize
        ensures count { result ≡ self.now.count }
        ensures table { IsSummary self.now.bytes self.now.count }
    {
        self.count
    }

    /// One row.
    pub fn row(&self, i: usize) -> Row
        requires { i < self.now.count }
        ensures first { result.first ≡ field_at self.now.bytes (3 * i) }
        ensures last { result.last ≡ field_at self.now.bytes (3 * i + 1) }
        ensures place { result.place ≡ field_at self.now.bytes (3 * i + 2) }
    {
        Row {
            first: field(self.bytes, 3 * i),
            last: field(self.bytes, 3 * i + 1),
            place: field(self.bytes, 3 * i + 2),
        }
    }

    /// The last location of one row.
    pub fn last(&self, i: usize) -> u64
        requires { i < self.now.count }
        ensures { result ≡ field_at self.now.bytes (3 * i + 1) }
    {
        field(self.bytes, 3 * i + 1)
    }

    /// The first row whose last location is at or above `to`, where that of `row` is below. It looks at the next row before
    /// it searches.
    pub fn find_after(&self, row: usize, to: u64) -> usize
        requires within { row + 1 < self.now.count }
        requires passed { field_at self.now.bytes (3 * row + 1) < to }
        requires there { to ≤ field_at self.now.bytes (3 * (self.now.count - 1) + 1) }
        ensures within { result < self.now.count }
        ensures found { to ≤ field_at self.now.bytes (3 * result + 1) }
        ensures before { (i : ℕ) → i < result → field_at self.now.bytes (3 * i + 1) < to }
    {
        if field(self.bytes, 3 * (row + 1) + 1) >= to {
            return row + 1;
        }
        self.find(to)
    }

    /// The first row whose last location is at or above `to`.
    pub fn find(&self, to: u64) -> usize
        requires some { 0 < self.now.count }
        requires there { to ≤ field_at self.now.bytes (3 * (self.now.count - 1) + 1) }
        ensures within { result < self.now.count }
        ensures found { to ≤ field_at self.now.bytes (3 * result + 1) }
        ensures before { (i : ℕ) → i < result → field_at self.now.bytes (3 * i + 1) < to }
    {
        let group = group_from(self.bytes, self.count, to);
        let high = (64 * group + 63).min(self.count - 1);
        row_from(self.bytes, 64 * group, high, to)
    }
}
