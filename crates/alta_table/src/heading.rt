// The head of a segment.
// `head` also reads a segment that is too short for one, and names the field that is cut or missing: so reading a whole segment asks
// nothing of its length.
ghost use Rattle.std.specs.Prelude.{◌≡◌, ℕ, ◌+◌, ◌<◌, ◌≤◌, ◌^◌, length, nat_le, IfOk};
ghost use Rattle.alta_format.specs.Gives.{AlwaysGives};
ghost use Rattle.alta_format.specs.Format.{FirstBroken, read};
ghost use Rattle.alta_table.specs.Answers.{AlwaysAnswers, IfDamaged};
ghost use Rattle.alta_table.specs.Tables.{HasHead, head_format, head_part, read_head};

use crate::fault::LevelFault;
use crate::sizes::Head;
use alta_format::{ReadFault, wide_at};

// Whether the head, so many bytes and a part behind them are no longer than the segment.
fn has_room(before: u64, bytes: u64, total: u64) -> bool
    ensures { result ≡ nat_le (32 + before + bytes) total }
{
    32 <= total && before <= total - 32 && bytes <= total - 32 - before
}

#[tactic(auto, unfolding(alta_format::specs::Format::read, crate::specs::Tables::head_format))]
fn head_at(bytes: &[u8], total: u64) -> Result<(Head, &[u8]), ReadFault>
    ensures reads { AlwaysGives (λ x. (x.0, x.1.now)) result (read (head_format total) bytes.now) }
    ensures fits { IfOk result (λ x. 32 + x.0.document_bytes + x.0.term_bytes ≤ total) }
{
    let (documents, behind_documents) = wide_at(bytes)?;
    if documents == 0 {
        return Err(ReadFault::Broken(bytes.len()));
    }
    let (terms, behind_terms) = wide_at(behind_documents)?;
    let (document_bytes, behind_bytes) = wide_at(behind_terms)?;
    if !has_room(0, document_bytes, total) {
        return Err(ReadFault::Broken(behind_terms.len()));
    }
    let (term_bytes, rest) = wide_at(behind_bytes)?;
    if !has_room(document_bytes, term_bytes, total) {
        return Err(ReadFault::Broken(behind_bytes.len()));
    }
    Ok((
        Head {
            documents,
            terms,
            document_bytes,
            term_bytes,
        },
        rest,
    ))
}

// The head at the front of the bytes.
fn read_front(bytes: &[u8], place: u64, total: u64) -> Result<Head, LevelFault>
    requires { place + total < 2 ^ 64 }
    ensures exact { AlwaysAnswers (λ h. h) result (read_head bytes.now place total) }
    ensures fits { IfOk result (λ h. 32 + h.document_bytes + h.term_bytes ≤ total) }
{
    let len = (bytes.len() as u64).min(total).min(32) as usize;
    let (front, _behind) = bytes.split_at(len);
    match head_at(front, total) {
        Ok((head, _rest)) => Ok(head),
        Err(ReadFault::Memory) => Err(LevelFault::Memory),
        Err(ReadFault::Broken(left)) => Err(LevelFault::Damaged(place + (len - left) as u64)),
    }
}

/// Reads the head of a segment of `total` bytes that begins at a place of the disk. `bytes` begins with the segment's
/// bytes; the head is the first 32 of them, or all where there are fewer, and then the field that is cut or missing
/// breaks the rule that it be there. `Damaged` has the place of the first field that breaks a rule: a number of
/// documents that is 0, or a part that, with the head and the part before it, is longer than the segment. It takes no
/// memory, and never answers `Memory`.
pub fn head(bytes: &[u8], place: u64, total: u64) -> Result<Head, LevelFault>
    requires { place + total < 2 ^ 64 }
    // What is read is spelled so, and keeps the rules.
    ensures found { IfOk result (HasHead bytes.now total) }
    // The damage is the first.
    ensures first { IfDamaged result (FirstBroken (head_format total) (head_part bytes.now total) place) }
    // The same in one fact.
    ensures exact { AlwaysAnswers (λ h. h) result (read_head bytes.now place total) }
    ensures fits { IfOk result (λ h. 32 + h.document_bytes + h.term_bytes ≤ total) }
{
    read_front(bytes, place, total)
}
