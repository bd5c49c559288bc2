// The fields of a slot.
ghost use Rattle.std.specs.Prelude.{◌≡◌, ℕ, ◌+◌, ◌<◌, ◌≤◌, ◌^◌, [], length, nat_le, ◌==◌, IsTrue};
ghost use Rattle.std.specs.List.{All, list_all};
ghost use Rattle.alta_format.specs.Gives.{Gives, NeverMemory};
ghost use Rattle.alta_format.specs.Format.{read};
ghost use Rattle.alta_layout.specs.Wide.{of_eight};
ghost use Rattle.alta_root.specs.Root.{root_format, levels_format, extent_in, extents_of, are_apart, is_extent, is_list, is_version as is_version_number, is_next_number, is_next_location};
ghost use Rattle.alta_root.specs.Slots.{root_in};
ghost use Rattle.alta_root.specs.Answers.{Says};

use crate::places::{DOCUMENT_CELLS, LAST_NEXT, LEVEL_BYTES, LEVELS, VERSION};
use crate::{Root, RootFault};
use alta_codec::Extent;
use alta_format::{ReadFault, byte_at, text_at, wide_at};
use alta_layout::HEAD_BYTES;
use arrayvec::ArrayVec;

// The root that fields say which begin at a place of a disk of this size.
#[tactic(auto, unfolding(crate::specs::Slots::root_in))]
pub(crate) fn root_at(fields: &[u8], start: u64, size: u64) -> Result<Root, RootFault>
    requires { start + length fields.now < 2 ^ 64 }
    ensures { Says result (root_in size start fields.now) }
{
    match fields_at(fields, size) {
        Ok((root, _rest)) => Ok(root),
        Err(ReadFault::Broken(left)) => {
            Err(RootFault::Damaged(start + (fields.len() - left) as u64))
        }
        Err(ReadFault::Memory) => Err(RootFault::Disk),
    }
}

#[tactic(auto, unfolding(alta_format::specs::Format::read, crate::specs::Root::root_format))]
fn fields_at(bytes: &[u8], size: u64) -> Result<(Root, &[u8]), ReadFault>
    ensures gives { Gives (λ x. (x.0, x.1.now)) result (read (root_format size) bytes.now) }
    ensures lean { NeverMemory result }
{
    let (version, behind_version) = byte_at(bytes)?;
    if !is_version(version) {
        return Err(ReadFault::Broken(bytes.len()));
    }
    let (sequence, behind_sequence) = byte_at(behind_version)?;
    let (count, behind_count) = byte_at(behind_sequence)?;
    if count as usize > LEVELS {
        return Err(ReadFault::Broken(behind_sequence.len()));
    }
    let (zeros, behind_zeros) = text_at(behind_count, 4)?;
    if !are_zero(zeros) {
        return Err(ReadFault::Broken(behind_count.len()));
    }
    let (next_number, behind_number) = wide_at(behind_zeros)?;
    if !is_number(next_number) {
        return Err(ReadFault::Broken(behind_zeros.len()));
    }
    let (next_location, behind_location) = wide_at(behind_number)?;
    if !is_location(next_number, next_location) {
        return Err(ReadFault::Broken(behind_number.len()));
    }
    let (list, rest) = text_at(behind_location, 16)?;
    let deletions = extent_of(list);
    if !is_deletions(size, deletions) {
        return Err(ReadFault::Broken(behind_location.len()));
    }
    let root = Root {
        version,
        sequence,
        next_number,
        next_location,
        levels: ArrayVec::new(),
        deletions,
    };
    levels_at(rest, size, root, count)
}

// The root with so many levels more.
fn levels_at(bytes: &[u8], size: u64, mut root: Root, count: u8) -> Result<(Root, &[u8]), ReadFault>
    requires few { count ≤ LEVELS }
    requires none { root.levels.items ≡ [] }
    ensures gives { Gives (λ x. (x.0, x.1.now)) result (read (levels_format size root count) bytes.now) }
    ensures lean { NeverMemory result }
{
    let mut rest = bytes;
    for _ in 0..count {
        match text_at(rest, 16) {
            Ok((text, behind)) => {
                let level = extent_of(text);
                if !is_level(size, &root, level) {
                    return Err(ReadFault::Broken(rest.len()));
                }
                root.levels.push(level);
                rest = behind;
            }
            Err(fault) => return Err(fault),
        }
    }
    Ok((root, rest))
}

#[tactic(auto, unfolding(alta_layout::specs::Wide::of_eight))]
fn extent_of(bytes: &[u8]) -> Extent
    requires { length bytes.now ≡ 16 }
    ensures { result ≡ extent_in bytes.now }
{
    let (place, bytes) = bytes.split_at(8);
    Extent {
        place: number_of(place),
        bytes: number_of(bytes),
    }
}

#[tactic(auto, unfolding(alta_layout::specs::Wide::of_eight))]
fn number_of(bytes: &[u8]) -> u64
    requires { length bytes.now ≡ 8 }
    ensures { result ≡ of_eight bytes.now }
{
    let mut number = [0u8; 8];
    number.copy_from_slice(bytes);
    u64::from_be_bytes(number)
}

fn are_zero(bytes: &[u8]) -> bool
    ensures { result ≡ list_all (λ b. b == 0) bytes.now }
{
    bytes.iter().all(|byte| *byte == 0)
}

fn is_version(version: u8) -> bool
    ensures { result ≡ is_version_number version }
{
    1 <= version && version <= VERSION
}

fn is_number(number: u64) -> bool
    ensures { result ≡ is_next_number number }
{
    1 <= number && number <= LAST_NEXT
}

fn is_location(number: u64, location: u64) -> bool
    requires { IsTrue (is_next_number number) }
    ensures { result ≡ is_next_location number location }
{
    1 <= location && location <= 1 + (number - 1) * DOCUMENT_CELLS
}

fn is_deletions(size: u64, extent: Extent) -> bool
    ensures { result ≡ is_list size extent }
{
    extent.place == 0 && extent.bytes == 0 || fits(1, size, extent)
}

fn is_level(size: u64, root: &Root, extent: Extent) -> bool
    ensures { result ≡ is_extent LEVEL_BYTES size (extents_of root.now) extent }
{
    fits(LEVEL_BYTES, size, extent) && apart(extent, root.deletions) && meets_no_level(root, extent)
}

fn meets_no_level(root: &Root, extent: Extent) -> bool
    ensures { result ≡ list_all (are_apart extent) root.now.levels.items }
{
    root.levels
        .as_slice()
        .iter()
        .all(|level| apart(extent, *level))
}

fn fits(least: u64, size: u64, extent: Extent) -> bool
    ensures { result ≡ is_extent least size [] extent }
{
    least <= extent.bytes
        && HEAD_BYTES <= extent.place
        && extent.place <= size
        && extent.bytes <= size - extent.place
}

fn apart(a: Extent, b: Extent) -> bool
    ensures { result ≡ are_apart a b }
{
    is_before(a, b) || is_before(b, a)
}

fn is_before(a: Extent, b: Extent) -> bool
    ensures { result ≡ nat_le (a.place + a.bytes) b.place }
{
    a.place <= b.place && a.bytes <= b.place - a.place
}
