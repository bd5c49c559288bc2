// How far a stream was read beside the rows of its summary.
ghost use Rattle.std.specs.Prelude.{◌≡◌, ◌↔◌, ℕ, ◌+◌, ◌<◌, ◌≤◌, List, length, IfOk, IfErr, IsTrue};
ghost use Rattle.alta_postings.specs.Deltas.{IsBlockRead, decoded_list};
ghost use Rattle.alta_words.specs.Compared.{IsComparedTo};
ghost use Rattle.alta_words.specs.Fault.{IsPostingFault, IsSameAfter, AreAllSame};
ghost use Rattle.alta_words.specs.Word.{IsPosting, HasBounds};

use crate::checking::{Bounds, PostingFault};
use alta_postings::{BlockSpan, Summary};

/// How far a stream was read, block by block, beside the rows of its summary. Whoever reads it may look at the locations
/// of each block meanwhile.
#[derive(Clone, Copy, Drop)]
pub struct Compared {
    /// The place behind what was read.
    pub at: usize,
    /// The last location that was read, 0 where there is none.
    pub last: u64,
    /// The first one, 0 where there is none.
    pub first: u64,
    /// How many locations were read.
    pub count: usize,
    /// How many blocks were read.
    pub blocks: usize,
    /// How many of the first rows are the blocks of their number.
    pub same: usize,
}

// How many of the first rows are the blocks of their number, after one more block.
fn same_after(table: &Summary<'_>, same: usize, block: usize, at: usize, span: &BlockSpan) -> usize
    requires { same ≤ block }
    ensures { IsSameAfter table.now.bytes table.now.count same block at span.now.first span.now.last result }
{
    if same < block {
        return same;
    }
    if block >= table.rows() {
        return same;
    }
    let row = table.row(block);
    if row.first != span.first {
        return same;
    }
    if row.last != span.last {
        return same;
    }
    if row.place != at as u64 {
        return same;
    }
    same + 1
}

// The first location, after one more block.
fn first_after(first: u64, block: usize, here: u64) -> u64
    ensures start { block ≡ 0 → result ≡ here }
    ensures later { 0 < block → result ≡ first }
{
    if block == 0 { here } else { first }
}

// Whether all rows are the blocks of their number.
fn are_all_same(rows: usize, blocks: usize, same: usize) -> bool
    ensures { IsTrue result ↔ AreAllSame rows blocks same }
{
    if rows == 0 && blocks < 2 {
        return true;
    }
    same == rows && same == blocks
}

impl Compared {
    /// Nothing was read.
    pub fn none() -> Compared
        ensures read { (stream summary : List ℕ) → (b : ℕ) → IsComparedTo stream summary b result }
        ensures count { result.count ≡ 0 }
    {
        Compared {
            at: 0,
            last: 0,
            first: 0,
            count: 0,
            blocks: 0,
            same: 0,
        }
    }

    /// One more block was read, which begins where the last one ended.
    pub fn with(self, stream: &[u8], table: &Summary<'_>, span: &BlockSpan) -> Compared
        requires read { IsComparedTo stream.now table.now.bytes table.now.count self }
        requires more { self.at < length stream.now }
        requires block { IsBlockRead stream.now self.at self.last span.now.first span.now.last
            span.now.count span.now.next }
        ensures read { IsComparedTo stream.now table.now.bytes table.now.count result }
        ensures at { result.at ≡ span.now.next }
        ensures last { result.last ≡ span.now.last }
        ensures count { result.count ≡ self.count + span.now.count }
    {
        Compared {
            at: span.next,
            last: span.last,
            first: first_after(self.first, self.blocks, span.first),
            count: self.count + span.count,
            blocks: self.blocks + 1,
            same: same_after(table, self.same, self.blocks, self.at, span),
        }
    }

    /// All of the stream was read: its bounds, or the first row that differs.
    pub fn end(self, stream: &[u8], table: &Summary<'_>) -> Result<Bounds, PostingFault>
        requires read { IsComparedTo stream.now table.now.bytes table.now.count self }
        requires end { length stream.now ≤ self.at }
        ensures posting { IfOk result (λ bounds. IsPosting stream.now table.now.bytes bounds.rows) }
        ensures bounds { IfOk result (λ bounds. HasBounds (decoded_list stream.now) bounds.count
            bounds.first bounds.last) }
        ensures fault { IfErr result (λ fault. IsPostingFault stream.now table.now.bytes fault) }
    {
        let rows = table.rows();
        if are_all_same(rows, self.blocks, self.same) {
            return Ok(Bounds {
                rows,
                count: self.count as u64,
                first: self.first,
                last: self.last,
            });
        }
        Err(PostingFault::Differ(self.same))
    }
}
