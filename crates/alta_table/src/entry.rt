// The fields of a row of the term part.
ghost use Rattle.std.specs.Prelude.{◌≡◌, ◌+◌, ◌≤◌, length, IfOk};
ghost use Rattle.alta_format.specs.Gives.{AlwaysGives};
ghost use Rattle.alta_format.specs.Format.{read};
ghost use Rattle.alta_table.specs.Terms.{continues, entry_row, is_rest_len, term_format};
ghost use Rattle.alta_content.specs.Lists.{is_kind};

use alta_format::{ReadFault, packed_at, text_at};

/// The longest term.
pub const LONGEST: usize = 129;

/// The fields of a row: how many bytes its term shares with the one before, the rest of the term, at how many locations
/// it stands, and the bytes of its stream and its summary.
#[derive(Clone, Copy, Drop)]
pub struct TermFields<'a> {
    pub shared: usize,
    pub rest: &'a [u8],
    pub count: u64,
    pub stream: u64,
    pub summary: u64,
}

fn is_kind_byte(b: u8) -> bool
    ensures { result ≡ is_kind b }
{
    b == b'W' || b == b'X' || b == b'N' || b == b'S' || b == b'T' || b == b'D'
}

fn is_length(shared: usize, len: u64) -> bool
    requires { shared ≤ LONGEST }
    ensures { result ≡ is_rest_len shared len }
{
    0 < len && len <= (LONGEST - shared) as u64
}

fn is_next(before: &[u8], shared: usize, rest: &[u8]) -> bool
    requires { shared ≤ length before.now }
    ensures { result ≡ continues before.now shared rest.now }
{
    match rest {
        [] => false,
        [first, ..] => {
            let kind = if shared > 0 { before[0] } else { *first };
            if !is_kind_byte(kind) {
                return false;
            }
            if shared < before.len() {
                return before[shared] < *first;
            }
            true
        }
    }
}

/// The fields of the row at the front, behind one of the term `before`, with so much room for streams and summaries.
#[tactic(auto, unfolding(alta_format::specs::Format::read, crate::specs::Terms::term_format))]
pub fn entry_at<'a>(
    before: &[u8],
    room: u64,
    bytes: &'a [u8],
) -> Result<(TermFields<'a>, &'a [u8]), ReadFault>
    requires { length before.now ≤ LONGEST }
    ensures gives { AlwaysGives (λ x. (entry_row before.now x.0, x.1.now)) result
        (read (term_format (record { term = before.now; room = room })) bytes.now) }
    ensures shared { IfOk result (λ x. x.0.shared ≤ length before.now) }
    ensures short { IfOk result (λ x. x.0.shared + length x.0.rest.now ≤ LONGEST) }
    ensures fits { IfOk result (λ x. x.0.stream + x.0.summary ≤ room) }
{
    let (shared, behind_shared) = packed_at(bytes)?;
    if shared > before.len() as u64 {
        return Err(ReadFault::Broken(bytes.len()));
    }
    let shared = shared as usize;
    let (len, behind_len) = packed_at(behind_shared)?;
    if !is_length(shared, len) {
        return Err(ReadFault::Broken(behind_shared.len()));
    }
    let (rest, behind_rest) = text_at(behind_len, len as usize)?;
    if !is_next(before, shared, rest) {
        return Err(ReadFault::Broken(behind_len.len()));
    }
    let (count, behind_count) = packed_at(behind_rest)?;
    if count == 0 {
        return Err(ReadFault::Broken(behind_rest.len()));
    }
    let (stream, behind_stream) = packed_at(behind_count)?;
    if stream > room {
        return Err(ReadFault::Broken(behind_count.len()));
    }
    let (summary, behind_summary) = packed_at(behind_stream)?;
    if summary > room - stream {
        return Err(ReadFault::Broken(behind_stream.len()));
    }
    Ok((
        TermFields {
            shared,
            rest,
            count,
            stream,
            summary,
        },
        behind_summary,
    ))
}
