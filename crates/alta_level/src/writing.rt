// A list of locations, written as its stream and its summary.
// A list comes packed: its gaps are its stream, and are copied. Of a list of several blocks they are read once more, for the rows of
// its summary.
ghost use Rattle.std.specs.Prelude.{◌≡◌, ℕ, List, ◌++◌, length, None, OnOk, IfOk};
ghost use Rattle.alta_codec.specs.Rising.{IsRising};
ghost use Rattle.alta_content.specs.Packed.{AreGaps};
ghost use Rattle.alta_postings.specs.Deltas.{decoded_list, first_fault, stream_bytes};
ghost use Rattle.alta_level.specs.Coded.{blocks_of, summary_bytes};

use alta_codec::Loc;
use alta_content::PackedList;
use alta_postings::{Row, build, scan_block};
use std::alloc::{AllocError, Global};

/// How many bytes the stream and the summary of a list have.
#[derive(Clone, Copy, Debug, PartialEq, Eq, Drop)]
pub struct ListSize {
    /// The stream's bytes.
    pub stream: u64,
    /// The summary's bytes.
    pub summary: u64,
}

// Leaves in `rows` the blocks of the list that a stream spells, and nothing that it held.
fn read_rows(rows: &mut Vec<Row>, stream: &[u8]) -> Result<(), AllocError>
    requires { first_fault stream.now ≡ None }
    ensures { OnOk result (rows.new.items ≡ blocks_of (decoded_list stream.now)) }
{
    rows.clear();
    let mut at = 0;
    let mut before: Loc = 0;
    'stream: while at < stream.len() {
        match scan_block(stream, at, before) {
            Ok(span) => {
                rows.push(Row {
                    first: span.first,
                    last: span.last,
                    place: at as u64,
                })?;
                at = span.next;
                before = span.last;
            }
            Err(_fault) => unreachable!(),
        }
    }
    Ok(())
}

// Appends the summary of a list, which is empty for one block or none. `rows` is room to work in.
fn put_summary(
    alloc: Global,
    out: &mut Vec<u8>,
    rows: &mut Vec<Row>,
    list: PackedList<'_>,
) -> Result<(), AllocError>
    requires { (locations : List ℕ) × IsRising locations × AreGaps list.gaps.now list.count locations }
    ensures { (locations : List ℕ) → IsRising locations → AreGaps list.entry.gaps.now list.entry.count locations
        → OnOk result (out.new.items ≡ out.old.items ++ summary_bytes locations) }
{
    if list.count <= 64 {
        return Ok(());
    }
    read_rows(rows, list.gaps)?;
    let summary = build(alloc, rows)?;
    out.extend_from_slice(&summary)?;
    Ok(())
}

/// Appends the stream and the summary of a list that rises strictly, from 1 to below `TOP`. The stream is copied, and is read once
/// where the list has several blocks. `rows` is room to work in, which lists may share.
pub fn put_list(
    alloc: Global,
    out: &mut Vec<u8>,
    rows: &mut Vec<Row>,
    list: PackedList<'_>,
) -> Result<ListSize, AllocError>
    requires { (locations : List ℕ) × IsRising locations × AreGaps list.gaps.now list.count locations }
    ensures bytes { (locations : List ℕ) → IsRising locations → AreGaps list.entry.gaps.now list.entry.count locations
        → OnOk result (out.new.items ≡ out.old.items ++ stream_bytes 0 locations ++ summary_bytes locations) }
    ensures stream { (locations : List ℕ) → IsRising locations → AreGaps list.entry.gaps.now list.entry.count locations
        → IfOk result (λ size. size.stream ≡ length (stream_bytes 0 locations)) }
    ensures summary { (locations : List ℕ) → IsRising locations
        → AreGaps list.entry.gaps.now list.entry.count locations
        → IfOk result (λ size. size.summary ≡ length (summary_bytes locations)) }
{
    out.extend_from_slice(list.gaps)?;
    let behind = out.len();
    put_summary(alloc, out, rows, list)?;
    Ok(ListSize {
        stream: list.gaps.len() as u64,
        summary: (out.len() - behind) as u64,
    })
}
