// One block of a stream beside the runs of documents that stand side by side.
ghost use Rattle.std.specs.Prelude.{◌≡◌, ℕ, ◌<◌, ◌≤◌, List, length, slice_index, Some, None, IfSome, IsTrue};
ghost use Rattle.alta_codec.specs.declared.location.TheConstants.{TOP};
ghost use Rattle.alta_content.specs.Runs.{RunsRise};
ghost use Rattle.alta_level.specs.Meeting.{IsMet};
ghost use Rattle.alta_postings.specs.Placed.{ReadsFrom};

use crate::ranges::ranges_from;
use alta_codec::Loc;
use alta_content::Runs;
use alta_postings::{BlockSpan, StreamFault, Summary, fill_block, scan_block};
use alta_words::Compared;
use arrayvec::ArrayVec;

/// A block that was read beside the runs of documents.
#[derive(Drop)]
pub struct Met {
    /// What was read.
    pub span: BlockSpan,
    /// The run where it goes on, none where a location lies in no run.
    pub run: Option<usize>,
}

// Whether a run holds a location.
fn has(runs: &Runs, run: usize, location: Loc) -> bool
    requires paired { length runs.now.firsts.items ≡ length runs.now.ends.items }
    requires within { run < length runs.now.ends.items }
    ensures from { IsTrue result → slice_index runs.now.firsts.items run ≤ location }
    ensures to { IsTrue result → location ≤ slice_index runs.now.ends.items run }
{
    runs.firsts[run] <= location && location <= runs.ends[run]
}

// Whether a run holds the first and the last location of a block. Of a stream that spells no list, the first may be above the last.
fn has_block(runs: &Runs, run: usize, span: &BlockSpan) -> bool
    requires paired { length runs.now.firsts.items ≡ length runs.now.ends.items }
    requires within { run < length runs.now.ends.items }
    ensures first { IsTrue result → slice_index runs.now.firsts.items run ≤ span.now.first }
    ensures behind { IsTrue result → slice_index runs.now.firsts.items run ≤ span.now.last }
    ensures last { IsTrue result → span.now.last ≤ slice_index runs.now.ends.items run }
{
    has(runs, run, span.first) && has(runs, run, span.last)
}

// Whether the summary says that a block ends in a run. What it says may be wrong, and is asked for speed alone.
fn may_end_in(table: &Summary<'_>, block: usize, runs: &Runs, run: usize) -> bool
    requires { length runs.now.firsts.items ≡ length runs.now.ends.items }
    ensures { IsTrue result → run < length runs.now.ends.items }
{
    if block >= table.rows() {
        return false;
    }
    if run >= runs.ends.len() {
        return false;
    }
    has(runs, run, table.last(block))
}

// Reads a block, and looks at none of its locations.
fn pass_block(stream: &[u8], read: &Compared) -> Result<Met, StreamFault>
    requires more { read.now.at < length stream.now }
    requires low { read.now.last < TOP }
    ensures { (firsts ends : List ℕ) → ReadsFrom stream.now read.now.at read.now.last
        (IsMet stream.now read.now.at read.now.last firsts ends None) result }
{
    match scan_block(stream, read.at, read.last) {
        Ok(span) => Ok(Met { span, run: None }),
        Err(fault) => Err(fault),
    }
}

// Reads a block, and looks at each of its locations beside the runs from one on.
fn fill_beside(
    stream: &[u8],
    runs: &Runs,
    read: &Compared,
    from: usize,
    block: &mut ArrayVec<u64, 64>,
) -> Result<Met, StreamFault>
    requires rise { RunsRise runs.now.firsts.items runs.now.ends.items }
    requires more { read.now.at < length stream.now }
    requires low { read.now.last < TOP }
    requires within { from ≤ length runs.now.ends.items }
    requires passed { (i : ℕ) → i < from → slice_index runs.now.ends.items i < read.now.last }
    ensures { ReadsFrom stream.now read.now.at read.now.last
        (IsMet stream.now read.now.at read.now.last runs.now.firsts.items runs.now.ends.items (Some from)) result }
{
    match fill_block(stream, read.at, read.last, block) {
        Ok(span) => {
            let run = ranges_from(runs, from, block.as_slice());
            Ok(Met { span, run })
        }
        Err(fault) => Err(fault),
    }
}

// Reads a block, and looks at none of its locations where a run holds the first and the last of them, else at each.
fn scan_beside(
    stream: &[u8],
    runs: &Runs,
    read: &Compared,
    from: usize,
    block: &mut ArrayVec<u64, 64>,
) -> Result<Met, StreamFault>
    requires rise { RunsRise runs.now.firsts.items runs.now.ends.items }
    requires more { read.now.at < length stream.now }
    requires low { read.now.last < TOP }
    requires within { from < length runs.now.ends.items }
    requires passed { (i : ℕ) → i < from → slice_index runs.now.ends.items i < read.now.last }
    ensures { ReadsFrom stream.now read.now.at read.now.last
        (IsMet stream.now read.now.at read.now.last runs.now.firsts.items runs.now.ends.items (Some from)) result }
{
    match scan_block(stream, read.at, read.last) {
        Ok(span) => {
            if has_block(runs, from, &span) {
                return Ok(Met {
                    span,
                    run: Some(from),
                });
            }
            fill_beside(stream, runs, read, from, block)
        }
        Err(fault) => Err(fault),
    }
}

// Reads a block beside the runs from one on, without a look at its locations where the summary says that it ends in that run.
fn read_beside(
    stream: &[u8],
    table: &Summary<'_>,
    runs: &Runs,
    read: &Compared,
    from: usize,
    block: &mut ArrayVec<u64, 64>,
) -> Result<Met, StreamFault>
    requires rise { RunsRise runs.now.firsts.items runs.now.ends.items }
    requires more { read.now.at < length stream.now }
    requires low { read.now.last < TOP }
    requires within { from ≤ length runs.now.ends.items }
    requires passed { (i : ℕ) → i < from → slice_index runs.now.ends.items i < read.now.last }
    ensures { ReadsFrom stream.now read.now.at read.now.last
        (IsMet stream.now read.now.at read.now.last runs.now.firsts.items runs.now.ends.items (Some from)) result }
{
    if may_end_in(table, read.blocks, runs, from) {
        return scan_beside(stream, runs, read, from, block);
    }
    fill_beside(stream, runs, read, from, block)
}

/// Reads the next block of a stream beside the runs of documents, from one on. Where its row of the summary says that it ends in that
/// run, in which the block before ended, its first and its last location tell it of all; else each of its locations is looked at.
/// Where something did not fit before, none is.
pub fn next_block(
    stream: &[u8],
    table: &Summary<'_>,
    runs: &Runs,
    read: &Compared,
    run: Option<usize>,
    block: &mut ArrayVec<u64, 64>,
) -> Result<Met, StreamFault>
    requires rise { RunsRise runs.now.firsts.items runs.now.ends.items }
    requires more { read.now.at < length stream.now }
    requires low { read.now.last < TOP }
    requires within { IfSome run (λ from. from ≤ length runs.now.ends.items) }
    requires passed { IfSome run (λ from. (i : ℕ) → i < from → slice_index runs.now.ends.items i < read.now.last) }
    ensures { ReadsFrom stream.now read.now.at read.now.last
        (IsMet stream.now read.now.at read.now.last runs.now.firsts.items runs.now.ends.items run) result }
{
    match run {
        Some(from) => read_beside(stream, table, runs, read, from, block),
        None => pass_block(stream, read),
    }
}
