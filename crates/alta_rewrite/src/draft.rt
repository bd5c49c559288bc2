// What is written anew, and the root to come, before any call of the disk.
ghost use Rattle.std.specs.Prelude.{◌≡◌, ◌≤◌, ◌+◌, ◌-◌, ◌++◌, ◌^◌, ◌<◌, length, drop, IfOk, IfSome, Some};
ghost use Rattle.std.specs.Str.{bytes_eq};
ghost use Rattle.alta_codec.specs.Rising.{IsRising};
ghost use Rattle.alta_content.specs.Parts.{IsPart};
ghost use Rattle.alta_content.specs.declared.content.Content.{Content};
ghost use Rattle.alta_meaning.specs.Work.{coming};
ghost use Rattle.alta_level.specs.Segments.{IsSegment};
ghost use Rattle.alta_rewrite.specs.Drafts.{Drafts, extents_to_come, list_of, list_to_come, pairs_in, pieces_of, root_to_come, segment_of, table_to_come};
ghost use Rattle.alta_rewrite.specs.Places.{as_list};

use crate::piece::Piece;
use crate::places::{Places, find_places};
use crate::{Ends, NextLevels, RewriteFault};
use alta_codec::{Bytes, DocNumber, Extent, Loc};
use alta_content::Content;
use alta_level::{LevelFault, OpenLevel, build, head};
use alta_postings::encode;
use alta_root::{Root, VERSION};
use arrayvec::ArrayVec;
use std::alloc::{AllocError, Global};

/// What is written anew, and what it leaves.
#[derive(Drop)]
pub(crate) struct Draft {
    /// The segments of the new levels, empty where there is none.
    pub(crate) oldest: Vec<u8>,
    pub(crate) newest: Vec<u8>,
    /// The deletion list's bytes, empty where none is written.
    pub(crate) list: Bytes,
    /// Where they are to stand.
    pub(crate) places: Places,
    /// The root to come.
    pub(crate) root: Root,
    /// The tables of the new levels.
    pub(crate) oldest_level: Option<OpenLevel>,
    pub(crate) newest_level: Option<OpenLevel>,
}

// ---- bytes

// The segment of a content, without bytes where there are no documents. The content is used up.
fn spell_segment(alloc: Global, content: Content) -> Result<Vec<u8>, AllocError>
    requires { IsPart content }
    ensures { IfOk result (λ segment. segment.items ≡ segment_of content) }
{
    if content.documents.len() == 0 {
        return Ok(Vec::new(alloc));
    }
    build(alloc, content)
}

fn are_same(some: &[Loc], others: &[Loc]) -> bool
    ensures { result ≡ bytes_eq some.now others.now }
{
    some == others
}

// The bytes of the list to come, none where it stays the same.
fn spell_list(alloc: Global, ends: Ends<'_>) -> Result<Bytes, AllocError>
    requires { IsRising ends.deleted.now }
    ensures { IfOk result (λ list. list ≡ list_of ends.entry) }
{
    if are_same(ends.deleted, ends.listed) {
        return Ok(Bytes::from_vec(Vec::new(alloc)));
    }
    let coded = encode(alloc, ends.deleted)?;
    Ok(coded.bytes)
}

// ---- the root to come

fn list_place(root: &Root, ends: Ends<'_>, place: Option<Extent>) -> Extent
    ensures { result ≡ list_to_come root.now ends.entry place }
{
    match place {
        Some(extent) => extent,
        None if are_same(ends.deleted, ends.listed) => root.deletions,
        None => Extent { place: 0, bytes: 0 },
    }
}

fn push_level(levels: &mut ArrayVec<Extent, 16>, level: Option<Extent>)
    requires { length levels.old.items + length (as_list level) ≤ 16 }
    ensures { levels.new.items ≡ levels.old.items ++ as_list level }
{
    if let Some(extent) = level {
        levels.push(extent);
    }
}

// The extents that stay, between the new ones.
fn next_levels(root: &Root, stay_from: usize, places: Places) -> ArrayVec<Extent, 16>
    requires few { length (as_list places.oldest) + (length root.now.levels.items - stay_from)
        + length (as_list places.newest) ≤ 16 }
    requires index { stay_from ≤ length root.now.levels.items }
    ensures { result.items ≡ extents_to_come root.now stay_from places }
{
    let mut levels = ArrayVec::new();
    push_level(&mut levels, places.oldest);
    let staying = &root.levels.as_slice()[stay_from..];
    let Ok(()) = levels.try_extend_from_slice(staying) else {
        unreachable!()
    };
    push_level(&mut levels, places.newest);
    levels
}

fn next_root(
    root: &Root,
    ends: Ends<'_>,
    stay_from: usize,
    next: DocNumber,
    location: Loc,
    places: Places,
) -> Root
    requires few { length (as_list places.oldest) + (length root.now.levels.items - stay_from)
        + length (as_list places.newest) ≤ 16 }
    requires index { stay_from ≤ length root.now.levels.items }
    ensures { result ≡ root_to_come root.now ends.entry stay_from next location places }
{
    Root {
        version: VERSION,
        sequence: root.sequence.wrapping_add(1),
        next_number: next,
        next_location: location,
        levels: next_levels(root, stay_from, places),
        deletions: list_place(root, ends, places.list),
    }
}

// ---- the levels

// The tables of a segment, which stands at a place.
fn open_segment(alloc: Global, segment: &[u8], extent: Extent) -> Result<OpenLevel, AllocError>
    requires segment { (content : Content) × IsSegment segment.now content }
    requires bytes { extent.bytes ≡ length segment.now }
    requires below { extent.place + extent.bytes < 2 ^ 64 }
    ensures { (content : Content) → IsSegment segment.now content
        → IfOk result (λ table. Some table ≡ table_to_come (Some extent) content) }
{
    let Ok(found) = head(segment, extent.place, extent.bytes) else {
        unreachable!()
    };
    let front = 32 + found.document_bytes + found.term_bytes;
    let (tables, _lists) = segment.split_at(front as usize);
    match OpenLevel::open(alloc, tables, extent.place, extent.bytes) {
        Ok(table) => Ok(table),
        Err(LevelFault::Memory) => Err(AllocError),
        Err(LevelFault::Damaged(_)) => unreachable!(),
    }
}

// The tables of a new level, where there is one.
fn open_level(
    alloc: Global,
    segment: &[u8],
    place: Option<Extent>,
) -> Result<Option<OpenLevel>, AllocError>
    requires segment { IfSome place (λ _. (content : Content) × IsSegment segment.now content) }
    requires bytes { IfSome place (λ extent. extent.bytes ≡ length segment.now) }
    requires below { IfSome place (λ extent. extent.place + extent.bytes < 2 ^ 64) }
    ensures { (content : Content) → IfSome place (λ _. IsSegment segment.now content)
        → IfOk result (λ level. level ≡ table_to_come place content) }
{
    match place {
        Some(extent) => Ok(Some(open_segment(alloc, segment, extent)?)),
        None => Ok(None),
    }
}

// ---- all of it

/// What a switch to these levels writes, in memory. The contents are used up before the tables are opened.
pub(crate) fn make_draft(
    alloc: Global,
    root: &Root,
    levels: NextLevels,
    ends: Ends<'_>,
    next: DocNumber,
    location: Loc,
    limit: u64,
) -> Result<Draft, RewriteFault>
    requires oldest { IsPart levels.oldest }
    requires newest { IsPart levels.newest }
    requires index { levels.stay_from ≤ length root.now.levels.items }
    requires few { length (coming levels.oldest) + (length root.now.levels.items - levels.stay_from)
        + length (coming levels.newest) ≤ 16 }
    requires rising { IsRising ends.deleted.now }
    ensures { Drafts limit root.now levels ends.entry next location result }
{
    let stay_from = levels.stay_from;
    let oldest = spell_segment(alloc, levels.oldest)?;
    let newest = spell_segment(alloc, levels.newest)?;
    let list = spell_list(alloc, ends)?;
    let bytes = list.as_slice().len() as u64;
    let places = find_places(root, oldest.len() as u64, newest.len() as u64, bytes, limit)?;
    let oldest_level = open_level(alloc, &oldest, places.oldest)?;
    let newest_level = open_level(alloc, &newest, places.newest)?;
    let root = next_root(root, ends, stay_from, next, location, places);
    Ok(Draft {
        oldest,
        newest,
        list,
        places,
        root,
        oldest_level,
        newest_level,
    })
}

/// The segments and the list of a draft as pieces, each where it has a place.
pub(crate) fn pieces_in(alloc: Global, draft: &Draft) -> Result<Vec<Piece<'_>>, AllocError>
    ensures { IfOk result (λ pieces. pairs_in pieces.items ≡ pieces_of draft.now) }
{
    let mut pieces = Vec::new(alloc);
    if let Some(extent) = draft.places.oldest {
        let bytes = draft.oldest.as_slice();
        pieces.push(Piece { extent, bytes })?;
    }
    if let Some(extent) = draft.places.newest {
        let bytes = draft.newest.as_slice();
        pieces.push(Piece { extent, bytes })?;
    }
    if let Some(extent) = draft.places.list {
        let bytes = draft.list.as_slice();
        pieces.push(Piece { extent, bytes })?;
    }
    Ok(pieces)
}
