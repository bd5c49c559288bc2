// One block of a stream.
// A block can be read without its locations (`scan_block`): so a stream is compared with its summary in the pass that checks it, and
// each number is decoded once.
ghost use Rattle.std.specs.Prelude.{◌≡◌, ◌<◌, ◌≤◌, length, take, drop, slice_index, None, IfOk};
ghost use Rattle.alta_codec.specs.Rising.{IsRising};
ghost use Rattle.alta_codec.specs.declared.location.TheConstants.{TOP};
ghost use Rattle.alta_postings.specs.Deltas.{list_from, IsBlockRead};
ghost use Rattle.alta_postings.specs.Placed.{ReadsFrom};

use crate::fault::StreamFault;
use crate::lanes::scan_runs;
use crate::runs::fill_runs;
use crate::step::read_location;
use alta_codec::TOP;
use arrayvec::ArrayVec;

/// What was read of one block.
#[derive(Clone, Copy, Debug, PartialEq, Eq, Drop)]
pub struct BlockSpan {
    /// Its first location.
    pub first: u64,
    /// Its last location.
    pub last: u64,
    /// How many locations it has, 1 to 64.
    pub count: usize,
    /// The place behind it.
    pub next: usize,
}

/// Reads the block that begins at the place `at`, behind the location `before`, and keeps none of its locations. At a
/// fault, the first number of the block that shows it. It takes no memory.
pub fn scan_block(bytes: &[u8], at: usize, before: u64) -> Result<BlockSpan, StreamFault>
    requires within { at < length bytes.now }
    requires low { before < TOP }
    ensures { ReadsFrom bytes.now at before
        (λ span. IsBlockRead bytes.now at before span.first span.last span.count span.next) result }
{
    let (first, _next) = read_location(bytes, at, before)?;
    let (mut next, mut last, mut count) = scan_runs(bytes, at, before);
    'numbers: while next < bytes.len() && count < 64 {
        let (location, after) = read_location(bytes, next, last)?;
        last = location;
        next = after;
        count += 1;
    }
    Ok(BlockSpan {
        first,
        last,
        count,
        next,
    })
}

/// Reads the block as [`scan_block`] does, and fills `out` with its locations, which rise above `before`.
pub fn fill_block(
    bytes: &[u8],
    at: usize,
    before: u64,
    out: &mut ArrayVec<u64, 64>,
) -> Result<BlockSpan, StreamFault>
    requires within { at < length bytes.now }
    requires low { before < TOP }
    ensures reads { ReadsFrom bytes.now at before
        (λ span. IsBlockRead bytes.now at before span.first span.last span.count span.next) result }
    ensures filled { IfOk result (λ span. out.new.items ≡ take span.count (list_from at 0 before (drop at bytes.now))) }
    ensures rising { IfOk result (λ span. IsRising out.new.items) }
    ensures above { IfOk result (λ span. before < slice_index out.new.items 0) }
    ensures counted { IfOk result (λ span. length out.new.items ≡ span.count) }
{
    out.clear();
    let (first, second) = read_location(bytes, at, before)?;
    out.push(first);
    let (mut next, mut last) = fill_runs(bytes, second, first, out);
    'numbers: while next < bytes.len() && out.len() < 64 {
        let (location, after) = read_location(bytes, next, last)?;
        out.push(location);
        last = location;
        next = after;
    }
    Ok(BlockSpan {
        first,
        last,
        count: out.len(),
        next,
    })
}
