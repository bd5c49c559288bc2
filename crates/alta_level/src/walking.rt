// A stream beside the rows of its summary and the ranges of documents, each number read once and none kept.
ghost use Rattle.std.specs.Prelude.{◌↔◌, List, ℕ, false, true, IfOk, IsTrue};
ghost use Rattle.alta_codec.specs.Rising.{IsRising};
ghost use Rattle.alta_content.specs.Rows.{AreDocuments, AreJoined};
ghost use Rattle.alta_content.specs.Runs.{AreInRuns, RunsRise};
ghost use Rattle.alta_level.specs.Coded.{IsCoded};
ghost use Rattle.alta_level.specs.Fitting.{AreFitting};
ghost use Rattle.alta_postings.specs.Deltas.{decoded_list};
ghost use Rattle.alta_level.specs.Walks.{Walks};
ghost use Rattle.alta_words.specs.Word.{HasBounds};

use crate::blocks::next_block;
use crate::ranges::{are_all_ends, are_all_held, ends_after, first_at};
use alta_content::{LevelRows, Runs};
use alta_postings::{Summary, fill_block};
use alta_words::{Bounds, Compared, PostingFault, check, summary_fault};
use arrayvec::ArrayVec;

/// What was read of a list whose stream and summary belong together.
#[derive(Drop)]
pub struct Walked {
    /// Its bounds.
    pub bounds: Bounds,
    /// Whether its locations fit the documents.
    pub fits: bool,
}

// Reads a stream block by block, beside the rows of its summary and the ends of the documents.
fn walk_ends(
    stream: &[u8],
    table: &Summary<'_>,
    documents: &LevelRows,
) -> Result<Walked, PostingFault>
    requires documents { AreDocuments documents.now }
    ensures { Walks stream.now table.now.bytes (AreFitting documents.now true (decoded_list stream.now)) result }
{
    let mut read = Compared::none();
    let mut row = Some(0);
    let mut block = ArrayVec::new();
    'whole: while read.at < stream.len() {
        match fill_block(stream, read.at, read.last, &mut block) {
            Ok(span) => {
                row = ends_after(documents, row, block.as_slice());
                read = read.with(stream, table, &span);
            }
            Err(fault) => return Err(PostingFault::Stream(fault.place)),
        }
    }
    match read.end(stream, table) {
        Ok(bounds) => Ok(Walked {
            bounds,
            fits: are_all_ends(documents, row),
        }),
        Err(fault) => Err(fault),
    }
}

// Reads a stream block by block, beside the rows of its summary and the runs of documents.
fn walk_runs(stream: &[u8], table: &Summary<'_>, runs: &Runs) -> Result<Walked, PostingFault>
    requires { RunsRise runs.now.firsts.items runs.now.ends.items }
    ensures { Walks stream.now table.now.bytes
        (AreInRuns runs.now.firsts.items runs.now.ends.items (decoded_list stream.now)) result }
{
    let mut read = Compared::none();
    let mut run = Some(0);
    let mut block = ArrayVec::new();
    'whole: while read.at < stream.len() {
        match next_block(stream, table, runs, &read, run, &mut block) {
            Ok(met) => {
                run = met.run;
                read = read.with(stream, table, &met.span);
            }
            Err(fault) => return Err(PostingFault::Stream(fault.place)),
        }
    }
    match read.end(stream, table) {
        Ok(bounds) => Ok(Walked {
            bounds,
            fits: are_all_held(run),
        }),
        Err(fault) => Err(fault),
    }
}

// Reads a stream block by block, beside the rows of its summary and the documents.
fn walk(
    stream: &[u8],
    table: &Summary<'_>,
    documents: &LevelRows,
    ends: bool,
) -> Result<Walked, PostingFault>
    requires documents { AreDocuments documents.now }
    ensures { Walks stream.now table.now.bytes (AreFitting documents.now ends (decoded_list stream.now)) result }
{
    if ends {
        return walk_ends(stream, table, documents);
    }
    walk_runs(stream, table, documents.runs())
}

// Reads a stream and a summary once each, beside the documents: whether each location lies in the range of one, and, where they have
// to be the `ends` of the documents, whether they are.
fn walk_list(
    stream: &[u8],
    summary: &[u8],
    documents: &LevelRows,
    ends: bool,
) -> Result<Walked, PostingFault>
    requires documents { AreDocuments documents.now }
    ensures coded { IfOk result (λ walked. IsCoded stream.now summary.now (decoded_list stream.now)) }
    ensures walks { Walks stream.now summary.now (AreFitting documents.now ends (decoded_list stream.now)) result }
{
    match Summary::open(summary) {
        Ok(table) => walk(stream, &table, documents, ends),
        Err(wrong) => Err(summary_fault(stream, summary, wrong.place)),
    }
}

// Whether all locations of a list with these bounds lie in the ranges of documents that stand side by side: whether the first and
// the last do.
fn are_within(documents: &LevelRows, bounds: &Bounds) -> bool
    requires documents { AreDocuments documents.now }
    requires joined { AreJoined documents.now }
    ensures { (list : List ℕ) → IsRising list → HasBounds list bounds.now.count bounds.now.first bounds.now.last
        → IsTrue result ↔ AreFitting documents.now false list }
{
    if bounds.count == 0 {
        return true;
    }
    let ends = documents.ends();
    if ends.is_empty() {
        return false;
    }
    if bounds.first < first_at(documents, 0) {
        return false;
    }
    if ends[ends.len() - 1] < bounds.last {
        return false;
    }
    true
}

// The same as `walk_list` beside documents that stand side by side, of a term that is not `D`. No location is looked at beside them.
fn walk_joined(stream: &[u8], summary: &[u8], documents: &LevelRows) -> Result<Walked, PostingFault>
    requires documents { AreDocuments documents.now }
    requires joined { AreJoined documents.now }
    ensures coded { IfOk result (λ walked. IsCoded stream.now summary.now (decoded_list stream.now)) }
    ensures walks { Walks stream.now summary.now (AreFitting documents.now false (decoded_list stream.now)) result }
{
    match check(stream, summary) {
        Ok(bounds) => Ok(Walked {
            fits: are_within(documents, &bounds),
            bounds,
        }),
        Err(fault) => Err(fault),
    }
}

/// Tests a stream and a summary as [`alta_words::check`] does, and whether each location lies in the range of a document, and, where
/// they have to be the `ends` of the documents, whether they are. Where the documents stand side by side, the first location and
/// the last tell it of all, and where they stand in several runs, of each block that lies in one. It takes no memory.
pub fn test_list(
    stream: &[u8],
    summary: &[u8],
    documents: &LevelRows,
    ends: bool,
) -> Result<Walked, PostingFault>
    requires documents { AreDocuments documents.now }
    ensures coded { IfOk result (λ walked. IsCoded stream.now summary.now (decoded_list stream.now)) }
    ensures walks { Walks stream.now summary.now (AreFitting documents.now ends (decoded_list stream.now)) result }
{
    if ends {
        return walk_list(stream, summary, documents, ends);
    }
    if documents.is_joined() {
        return walk_joined(stream, summary, documents);
    }
    walk_list(stream, summary, documents, ends)
}
