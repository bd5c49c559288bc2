// Whether a stream and a summary belong together, in one pass over each.
// A stream of one block agrees with the empty summary alone, since its summary has no rows. Beside a table its one block is block 0:
// so the first row that differs may be row 0, or row 1 where row 0 is that block.
ghost use Rattle.std.specs.Prelude.{IfOk, IfErr};
ghost use Rattle.alta_postings.specs.Deltas.{decoded_list};
ghost use Rattle.alta_postings.specs.Table.{IsFault};
ghost use Rattle.alta_words.specs.Fault.{IsPostingFault};
ghost use Rattle.alta_words.specs.Word.{IsPosting, HasBounds};

use crate::compared::Compared;
use alta_postings::{Stream, Summary, scan_block};

/// Why a stream and a summary do not belong together.
#[derive(Clone, Copy, Debug, PartialEq, Eq, Drop)]
pub enum PostingFault {
    /// The stream spells no list, as the number at this place shows.
    Stream(usize),
    /// The summary is no table, as the field at this place shows.
    Summary(usize),
    /// The row of this number is not the block of this number, or one of the two is missing.
    Differ(usize),
}

/// What was read of a stream and a summary that belong together.
#[derive(Drop)]
pub struct Bounds {
    /// How many rows the summary has.
    pub rows: usize,
    /// How many locations the stream has.
    pub count: u64,
    /// The first location, 0 where there is none.
    pub first: u64,
    /// The last location, 0 where there is none.
    pub last: u64,
}

// Reads the stream block by block, beside the rows of the summary.
fn compare(stream: &[u8], table: &Summary<'_>) -> Result<Bounds, PostingFault>
    ensures posting { IfOk result (λ bounds. IsPosting stream.now table.now.bytes bounds.rows) }
    ensures bounds { IfOk result (λ bounds. HasBounds (decoded_list stream.now) bounds.count bounds.first bounds.last) }
    ensures fault { IfErr result (λ fault. IsPostingFault stream.now table.now.bytes fault) }
{
    let mut read = Compared::none();
    'whole: while read.at < stream.len() {
        match scan_block(stream, read.at, read.last) {
            Ok(span) => read = read.with(stream, table, &span),
            Err(fault) => return Err(PostingFault::Stream(fault.place)),
        }
    }
    read.end(stream, table)
}

/// Why a stream does not belong to a summary that is no table, as the field at this place shows: the stream's own fault
/// comes first.
pub fn summary_fault(stream: &[u8], summary: &[u8], place: usize) -> PostingFault
    requires { IsFault summary.now place }
    ensures { IsPostingFault stream.now summary.now result }
{
    match Stream::open(stream) {
        Ok(_) => PostingFault::Summary(place),
        Err(fault) => PostingFault::Stream(fault.place),
    }
}

/// Reads a stream and a summary once each. A fault is the stream's own, else the summary's own, else the first row that
/// differs.
pub fn check(stream: &[u8], summary: &[u8]) -> Result<Bounds, PostingFault>
    ensures posting { IfOk result (λ bounds. IsPosting stream.now summary.now bounds.rows) }
    ensures bounds { IfOk result (λ bounds. HasBounds (decoded_list stream.now) bounds.count bounds.first bounds.last) }
    ensures fault { IfErr result (λ fault. IsPostingFault stream.now summary.now fault) }
{
    match Summary::open(summary) {
        Ok(table) => compare(stream, &table),
        Err(wrong) => Err(summary_fault(stream, summary, wrong.place)),
    }
}
