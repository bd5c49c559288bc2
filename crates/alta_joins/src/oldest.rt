// The two oldest levels, whose join begins, and all levels, which are merged.
ghost use Rattle.std.specs.Prelude.{◌≡◌, ◌≤◌, ◌++◌, ◌∷◌, [], List, All, IfOk, length, map, take};
ghost use Rattle.std.specs.List.{sum_by};
ghost use Rattle.alta_content.specs.Parts.{IsPart};
ghost use Rattle.alta_content.specs.Spans.{SpansRise, deleted_spans};
ghost use Rattle.alta_content.specs.Rows.{AreDocuments, live_rows};
ghost use Rattle.alta_content.specs.declared.content.Content.{Content};
ghost use Rattle.alta_disk.specs.Calls.{Retrieves};
ghost use Rattle.alta_disk.specs.Disk.{DiskState};
ghost use Rattle.alta_meaning.specs.Broken.{IsBrokenAmong};
ghost use Rattle.alta_meaning.specs.Opened.{table_rows};
ghost use Rattle.alta_disk.specs.Answers.{IfDamaged};
ghost use Rattle.alta_joins.specs.Contents.{AreContentsOf, AreSegmentsOn, StandsOn, data_size};
ghost use Rattle.alta_joins.specs.Damages.{FindsDamage};
ghost use Rattle.alta_joins.specs.Jobs.{AreJoinedOn, IsBegun, IsJoining};
ghost use Rattle.alta_joins.specs.Newest.{IsNewest};
ghost use Rattle.alta_joins.specs.Reading.{IsOpen};
ghost use Rattle.alta_table.specs.Tables.{Tables};
ghost use Rattle.alta_memlevel.specs.Added.{Added};
ghost use Rattle.alta_content.specs.Joining.{joined_in};
ghost use Rattle.alta_memlevel.specs.Documents.{content_of};

use crate::joining::begin_job;
use crate::level::{ROW_BYTES, data_extent};
use crate::levels::read_levels;
use crate::merging::merge_lists;
use alta_codec::Loc;
use alta_content::{Content, DocRow, DocRows, Span, TermLists, keep_rows, spans_of};
use alta_disk::{Disk, LoadFault};
use alta_level::segments_read_back;
use alta_merge::Job;
use alta_table::OpenLevel;
use std::alloc::{AllocError, Global};
use std::default::MadeWith;

/// Reads the two oldest of these levels, and begins their join without what is gone.
///
/// # Errors
///
/// Those of [`crate::read_levels`].
pub fn begin_oldest<D: Disk>(
    alloc: Global,
    disk: &mut D,
    levels: &[OpenLevel],
    gone: &[Loc],
) -> Result<Job, LoadFault>
    requires two { 2 ≤ length levels.now }
    requires stands { D.tells → All (StandsOn (D.state disk.old).content) levels.now }
    requires documents { AreDocuments (table_rows levels.now) }
    // Whatever the disk tells, it is a join of contents with these tables; and they are those of the segments that stand there.
    ensures begun { IfOk result (λ job. (joining : IsJoining levels.now gone.now job) × IsBegun joining
        × (D.tells → AreJoinedOn (D.state disk.old).content joining)) }
    ensures damage { D.tells → FindsDamage (D.state disk.old).content (take 2 levels.now) result }
    ensures broken { D.tells → IfDamaged result (IsBrokenAmong (take 2 levels.now) (D.state disk.old).content) }
    ensures retrieves { Retrieves D.tells (sum_by data_size (take 2 levels.now)) (D.state disk.old)
        (D.state disk.new) result }
{
    let contents = read_levels(alloc, disk, &levels[..2])?;
    Ok(begin_job(alloc, contents, gone)?)
}

/// Reads all of these levels, and joins them with the newest documents behind them, without what is gone. `newest` has the live
/// ones of documents that were added. The levels are read side by side, a window of each at a time.
///
/// # Errors
///
/// Those of [`crate::read_levels`].
pub fn merge_levels<D: Disk>(
    alloc: Global,
    disk: &mut D,
    levels: &[OpenLevel],
    newest: Content,
    gone: &[Loc],
) -> Result<Content, LoadFault>
    requires stands { D.tells → All (StandsOn (D.state disk.old).content) levels.now }
    requires documents { AreDocuments (table_rows levels.now) }
    requires newest { (added : List Added) × IsNewest levels.now gone.now added newest }
    // It is the join of all levels and of all documents that were added, without what is gone.
    ensures merged { (added : List Added) → IsNewest levels.now gone.now added newest
        → IfOk result (λ content. (contents : List Content) × AreContentsOf levels.now contents
        × (D.tells → AreSegmentsOn (D.state disk.old).content levels.now contents)
        × (content ≡ joined_in (contents ++ content_of added ∷ []) gone.now)) }
    ensures part { IfOk result IsPart }
    ensures rows { IfOk result (λ content. content.documents
        ≡ live_rows gone.now (table_rows levels.now ++ newest.documents)) }
    ensures damage { D.tells → FindsDamage (D.state disk.old).content levels.now result }
    ensures broken { D.tells → IfDamaged result (IsBrokenAmong levels.now (D.state disk.old).content) }
    ensures retrieves { Retrieves D.tells (sum_by data_size levels.now) (D.state disk.old) (D.state disk.new) result }
{
    segments_read_back();
    let begun = match begin(alloc, levels, newest, gone) {
        Ok(begun) => begun,
        Err(_) => return Err(LoadFault::Memory),
    };
    let mut rows = begun.rows;
    let mut hand = begun.hand;
    let mut lists = begun.lists;
    match merge_lists(
        alloc,
        disk,
        levels,
        &mut rows,
        &mut hand,
        &mut lists,
        &begun.spans,
    ) {
        Ok(()) => Ok(Content {
            documents: DocRows::from_vec(begun.documents),
            lists,
        }),
        Err(fault) => Err(fault),
    }
}

// Levels that are about to be merged: the rows of their documents, how far each was read, and what is at hand.
#[derive(Drop)]
struct Unread {
    documents: Vec<DocRow>,
    rows: Vec<usize>,
    hand: Vec<TermLists>,
    // How many bytes the rows of the merged lists take, by the mean of a term.
    row_room: usize,
    // How many bytes their gaps take at most.
    room: usize,
}

// Levels of which nothing was read, beside each other.
fn begin_levels(alloc: Global, levels: &[OpenLevel]) -> Result<Unread, AllocError>
    ensures opened { IfOk result (λ unread. All IsOpen levels.now) }
    ensures documents { IfOk result (λ unread. unread.documents.items ≡ table_rows levels.now) }
    ensures rows { IfOk result (λ unread. unread.rows.items ≡ map (λ (level : Tables). 0) levels.now) }
    ensures hand { IfOk result (λ unread. unread.hand.items ≡ map (λ (level : Tables). []) levels.now) }
{
    let mut documents = Vec::new(alloc);
    let mut rows = Vec::new(alloc);
    let mut hand = Vec::new(alloc);
    let mut row_room: usize = 0;
    let mut room: usize = 0;
    for level in levels {
        let Ok(extent) = data_extent(level) else {
            return Err(AllocError);
        };
        let mut more = level.rows().copy_rows(alloc)?;
        documents.append(&mut more)?;
        rows.push(0)?;
        hand.push(TermLists::made_with(alloc))?;
        row_room = row_room.saturating_add(level.terms().saturating_mul(ROW_BYTES));
        room = room.saturating_add(extent.bytes as usize);
    }
    Ok(Unread {
        documents,
        rows,
        hand,
        row_room,
        room,
    })
}

// A merge that begins: the rows that are left, the spans of what is gone, how far each level was read, what is at hand, and room for
// what is made.
#[derive(Drop)]
struct Begun {
    documents: Vec<DocRow>,
    spans: Vec<Span>,
    rows: Vec<usize>,
    hand: Vec<TermLists>,
    lists: TermLists,
}

// Begins a merge of these levels with the newest documents, of which none is gone.
fn begin(
    alloc: Global,
    levels: &[OpenLevel],
    newest: Content,
    gone: &[Loc],
) -> Result<Begun, AllocError>
    requires { AreDocuments (table_rows levels.now) }
    ensures opened { IfOk result (λ begun. All IsOpen levels.now) }
    ensures documents { IfOk result (λ begun. begun.documents.items ≡ live_rows gone.now (table_rows levels.now)
        ++ newest.documents) }
    ensures spans { IfOk result (λ begun. begun.spans.items ≡ deleted_spans gone.now (table_rows levels.now)) }
    ensures rising { IfOk result (λ begun. SpansRise begun.spans.items) }
    ensures rows { IfOk result (λ begun. begun.rows.items ≡ map (λ (level : Tables). 0) levels.now) }
    ensures hand { IfOk result (λ begun. begun.hand.items ≡ map (λ (level : Tables). []) levels.now
        ++ newest.lists ∷ []) }
    ensures lists { IfOk result (λ begun. begun.lists ≡ []) }
{
    let opened = begin_levels(alloc, levels)?;
    let spans = spans_of(alloc, &opened.documents, gone)?;
    let mut documents = opened.documents;
    keep_rows(&mut documents, &spans);
    let mut more = newest.documents.into_vec();
    documents.append(&mut more)?;
    let rows = opened.row_room.saturating_add(newest.lists.row_room());
    let room = opened.room.saturating_add(newest.lists.room());
    let lists = TermLists::with_room(alloc, rows, room)?;
    let mut hand = opened.hand;
    hand.push(newest.lists)?;
    Ok(Begun {
        documents,
        spans,
        rows: opened.rows,
        hand,
        lists,
    })
}
