// The lists of a term.
ghost use Rattle.std.specs.Prelude.{◌≡◌, ◌∷◌, ◌++◌, ◌^◌, ℕ, List, [], map, All, Err, IfOk, IfSome, OnOk, Some, MatchOption, ◌<◌, length, slice_get, slice_index, slice_index_or, IsTrue};
ghost use Rattle.alta_content.specs.Lists.{locations_of};
ghost use Rattle.alta_content.specs.Rows.{ends_of};
ghost use Rattle.alta_disk.specs.Disk.{DiskState};
ghost use Rattle.alta_loading.specs.Kept.{AreKept, AreTestedIn, KeepsAlso, KeepsTested};
ghost use Rattle.alta_loading.specs.Lists.{KeepsRow, LiesWithin, stream_size};
ghost use Rattle.alta_loading.specs.Loads.{KeepRows, ReadsLists, list_at, load_at, loads_from, number_of, row_from};
ghost use Rattle.alta_loading.specs.Met.{level_terms};
ghost use Rattle.alta_loading.specs.Near.{AreNear, IsNearAt};
ghost use Rattle.alta_loading.specs.Terms.{if_some, number_if_some};
ghost use Rattle.alta_loading.specs.Tested.{AreEndsWhole, IsAllEnds};
ghost use Rattle.alta_search.specs.Lists.{level_in, level_list, stored_list, term_lists};
ghost use Rattle.alta_table.specs.Places.{row_at};
ghost use Rattle.alta_table.specs.Tables.{Tables};
ghost use Rattle.alta_table.specs.Terms.{counts_of};

use crate::kept::{Ends, KeptList, KeptLists, is_long};
use crate::list::{load_list, places};
use crate::near::Near;
use alta_codec::{Bytes, Loc};
use alta_disk::{Disk, LoadFault};
use alta_level::is_end_term;
use alta_memlevel::MemLevel;
use alta_search::{LevelList, Stored, TermLists};
use alta_table::{OpenLevel, TermCursor};
use alta_words::Posting;
use std::alloc::{AllocError, Global};
use std::rc::Rc;

/// The lists of a term: those of levels, and behind them a copy of that of the newest documents, which have this number.
pub(crate) fn all_lists(
    alloc: Global,
    newest: &MemLevel,
    number: u64,
    term: Bytes,
    coded: Vec<LevelList>,
) -> Result<TermLists, AllocError>
    requires { IsTrue newest.now.sound }
    ensures term { IfOk result (λ lists. lists.term ≡ term) }
    ensures numbers { IfOk result (λ lists. map level_in lists.levels.items ≡ map level_in coded.items
        ++ number_if_some number (locations_of newest.now.content.lists term)) }
    ensures lists { IfOk result (λ lists. term_lists lists ≡ map level_list coded.items
        ++ if_some (locations_of newest.now.content.lists term)) }
{
    let list = newest.get(term.as_slice());
    let levels = with_newest(alloc, coded, number, list)?;
    Ok(TermLists { term, levels })
}

// The lists, with a copy of one more behind them, where it is not empty.
fn with_newest(
    alloc: Global,
    coded: Vec<LevelList>,
    number: u64,
    list: &[Loc],
) -> Result<Vec<LevelList>, AllocError>
    ensures numbers { IfOk result (λ all. map level_in all.items ≡ map level_in coded.items
        ++ number_if_some number list.now) }
    ensures lists { IfOk result (λ all. map level_list all.items ≡ map level_list coded.items ++ if_some list.now) }
{
    if list.is_empty() {
        return Ok(coded);
    }
    let mut all = coded;
    let copy = Vec::from_slice(alloc, list)?;
    all.push(LevelList {
        level: number,
        stored: Stored::Plain(copy),
    })?;
    Ok(all)
}

/// Loads the lists of a term in levels, that of the oldest level first, by one read of the disk for each level that has the term. A list
/// is held as it is coded, but that of all documents' ends, once it was tested, as the level's rows have it. What `kept` knows is not
/// read, and a list that was read and is long is kept there. The oldest level is numbered 0. A level without the term has no list. In
/// each level the term is looked up behind the term before, by `nears`, which has all levels, and else by halves, where that is empty.
///
/// # Errors
///
/// `Damaged` exactly where one of the lists has a fault, at the first fault of the first list that has one. `Disk` where a
/// read failed. `Memory` where there was no memory for the lists.
pub(crate) fn load_coded<'a, D: Disk>(
    alloc: Global,
    disk: &mut D,
    levels: &'a [OpenLevel],
    kept: &mut KeptLists,
    term: &[u8],
    nears: &mut [Near<'a>],
) -> Result<Vec<LevelList>, LoadFault>
    requires within { D.tells → All (λ level. LiesWithin level (D.state disk.old).content) levels.now }
    requires known { AreKept D.tells (D.state disk.old).content levels.now kept.old }
    requires nears { AreNear levels.now nears.old }
    ensures nears { nears.new ≡ nears.old }
    // One list for each level that has the term.
    ensures numbers { IfOk result (λ lists. map level_in lists.items
        ≡ map number_of (loads_from 0 levels.now term.now)) }
    // They are what stands on the disk.
    ensures lists { D.tells → IfOk result (λ lists. map level_list lists.items
        ≡ map (list_at (D.state disk.old).content) (loads_from 0 levels.now term.now)) }
    // Whatever the disk tells, they keep what their rows and documents say.
    ensures kept { IfOk result (λ lists. KeepRows (loads_from 0 levels.now term.now) (map level_list lists.items)) }
    ensures known { AreKept D.tells (D.state disk.new).content levels.now kept.new }
    ensures loads { ReadsLists D.tells (loads_from 0 levels.now term.now) (D.state disk.old) (D.state disk.new) result }
{
    let mut lists = Vec::new(alloc);
    for number in 0..levels.len() {
        let level = &levels[number];
        let Some(row) = row_of(level, term, number as u64, nears) else {
            continue;
        };
        match load_row(alloc, disk, number as u64, level, kept, &row, term) {
            Ok(list) => lists.push(list)?,
            Err(fault) => return Err(fault),
        }
    }
    Ok(lists)
}

// The row of a term in the level of this number, behind that of the term before, where it was looked up.
fn row_of<'a>(
    level: &'a OpenLevel,
    term: &[u8],
    number: u64,
    among: &mut [Near<'a>],
) -> Option<TermCursor<'a>>
    requires { IsNearAt level.now number among.old }
    ensures kept { among.new ≡ among.old }
    ensures tables { IfSome result (λ c. c.tables ≡ level.now) }
    ensures row { row_at result ≡ row_from 0 level.now.terms term.now }
    ensures within { MatchOption (row_at result) (Unit {0}) (λ row. row < length level.now.terms) }
    ensures term { MatchOption (row_at result) (Unit {0})
        (λ row. slice_get (level_terms level.now) row ≡ Some term.now) }
{
    // This call tells that the terms rise.
    let _documents = level.documents();
    let number = number as usize;
    if number < among.len() {
        row_among(among, number, term)
    } else {
        row_alone(level, term)
    }
}

// The row of a term, which no look-up comes before. Nothing sorts before the term of document ends, so that has the first row.
fn row_alone<'a>(level: &'a OpenLevel, term: &[u8]) -> Option<TermCursor<'a>>
    ensures tables { IfSome result (λ c. c.tables ≡ level.now) }
    ensures row { MatchOption (row_at result) ((i : ℕ) → slice_get (level_terms level.now) i ≡ Some term.now
        → ⊥) (λ i. slice_get (level_terms level.now) i ≡ Some term.now) }
{
    if is_end_term(term) {
        let first = level.first();
        if first.term() == term {
            return Some(first);
        }
    }
    level.look_up(term)
}

// The row of a term in the level of this number, among these.
fn row_among<'a>(among: &mut [Near<'a>], number: usize, term: &[u8]) -> Option<TermCursor<'a>>
    requires { number < length among.old }
    ensures kept { among.new ≡ among.old }
    ensures tables { (d : Tables) → IfSome result (λ c. c.tables ≡ slice_index_or among.old number d) }
    ensures row { (d : Tables) → MatchOption (row_at result) ((i : ℕ)
        → slice_get (level_terms (slice_index_or among.old number d)) i ≡ Some term.now → ⊥)
        (λ i. slice_get (level_terms (slice_index_or among.old number d)) i ≡ Some term.now) }
{
    among[number].find(term)
}

// The list of a row of a level, which has this term. A long one that is read is kept.
fn load_row<D: Disk>(
    alloc: Global,
    disk: &mut D,
    number: u64,
    level: &OpenLevel,
    kept: &mut KeptLists,
    row: &TermCursor<'_>,
    term: &[u8],
) -> Result<LevelList, LoadFault>
    requires tables { row.now.tables ≡ level.now }
    requires row { row.now.row < length level.now.terms }
    requires term { slice_get (level_terms level.now) row.now.row ≡ Some term.now }
    requires within { D.tells → LiesWithin level.now (D.state disk.old).content }
    requires ends { D.tells → AreEndsWhole kept.old.ends (D.state disk.old).content (level.now ∷ []) }
    requires tested { AreTestedIn D.tells (D.state disk.old).content number level.now kept.old }
    ensures number { IfOk result (λ list. level_in list ≡ number) }
    ensures list { D.tells → IfOk result (λ list. level_list list
        ≡ list_at (D.state disk.old).content (record { number = number; level = level.now; row = row.now.row })) }
    ensures kept { IfOk result (λ list. KeepsRow level.now row.now.row (level_list list)) }
    ensures keeps { KeepsTested D.tells (D.state disk.old).content number level.now kept.old kept.new }
    ensures loads { ReadsLists D.tells (load_at number level.now (Some row.now.row)) (D.state disk.old)
        (D.state disk.new) result }
{
    if is_tested(kept.ends, level, row, term) {
        let list = all_ends(number, level)?;
        return Ok(list);
    }
    match kept.get(number, row.row()) {
        Some(posting) => Ok(LevelList {
            level: number,
            stored: Stored::Shared(posting.clone()?),
        }),
        None => match load_list(alloc, disk, level, row) {
            Ok(posting) => Ok(LevelList {
                level: number,
                stored: held(alloc, kept, number, level, row, term, posting)?,
            }),
            Err(fault) => Err(fault),
        },
    }
}

// Whether nothing has to be read of a row: its list is that of all ends, which was tested, and the row counts as many as there are
// documents.
fn is_tested(ends: Ends, level: &OpenLevel, row: &TermCursor<'_>, term: &[u8]) -> bool
    requires tables { row.now.tables ≡ level.now }
    requires row { row.now.row < length level.now.terms }
    requires term { slice_get (level_terms level.now) row.now.row ≡ Some term.now }
    ensures ends { IsTrue result → (image : List ℕ) → AreEndsWhole ends image (level.now ∷ [])
        → IsAllEnds image (record { number = 0; level = level.now; row = row.now.row }) }
    ensures kept { IsTrue result → KeepsRow level.now row.now.row (ends_of level.now.documents) }
    ensures small { IsTrue result → stream_size level.now row.now.row < 2 ^ 64 }
{
    match ends {
        Ends::Untested => false,
        Ends::Tested => counts_all_ends(level, row, term),
    }
}

// Whether a row is that of all ends, and counts as many as there are documents.
fn counts_all_ends(level: &OpenLevel, row: &TermCursor<'_>, term: &[u8]) -> bool
    requires tables { row.now.tables ≡ level.now }
    requires row { row.now.row < length level.now.terms }
    requires term { slice_get (level_terms level.now) row.now.row ≡ Some term.now }
    ensures ends { IsTrue result → (image : List ℕ) → AreEndsWhole Ends.Tested image (level.now ∷ [])
        → IsAllEnds image (record { number = 0; level = level.now; row = row.now.row }) }
    ensures kept { IsTrue result → KeepsRow level.now row.now.row (ends_of level.now.documents) }
    ensures small { IsTrue result → stream_size level.now row.now.row < 2 ^ 64 }
{
    if !is_end_term(term) {
        return false;
    }
    // This call tells that the stream has no more bytes than a number can count.
    let (_stream, _summary) = places(level, row);
    counts(level, row) == level.documents().len() as u64
}

// At how many locations the term of a row stands, as its row says.
fn counts(level: &OpenLevel, row: &TermCursor<'_>) -> u64
    requires { row.now.tables ≡ level.now }
    ensures { result ≡ slice_index (counts_of level.now.terms) row.now.row }
{
    row.count()
}

// The list of all ends of a level, as its rows have them.
fn all_ends(number: u64, level: &OpenLevel) -> Result<LevelList, AllocError>
    ensures number { IfOk result (λ list. level_in list ≡ number) }
    ensures list { IfOk result (λ list. level_list list ≡ ends_of level.now.documents) }
{
    let rows = level.rows().clone()?;
    Ok(LevelList {
        level: number,
        stored: Stored::Ends(rows),
    })
}

// The list of a row as it is held: where it is that of the ends of documents, as the level's rows have them in a plain form, and else as
// it is coded. A long one is kept.
fn held(
    alloc: Global,
    kept: &mut KeptLists,
    number: u64,
    level: &OpenLevel,
    row: &TermCursor<'_>,
    term: &[u8],
    posting: Posting,
) -> Result<Stored, AllocError>
    requires term { slice_get (level_terms level.now) row.now.row ≡ Some term.now }
    requires keeps { KeepsRow level.now row.now.row posting }
    ensures stored { IfOk result (λ stored. stored_list stored ≡ posting) }
    ensures kept { KeepsAlso number row.now.row posting kept.old kept.new }
{
    if is_end_term(term) {
        return Ok(Stored::Ends(level.rows().clone()?));
    }
    if !is_long(&posting) {
        return Ok(Stored::Coded(posting));
    }
    let (stream, summary) = row.stream_place();
    let bytes = stream.bytes.saturating_add(summary.bytes);
    let posting = Rc::new(alloc, posting)?;
    let list = KeptList {
        number,
        row: row.row(),
        posting: posting.clone()?,
    };
    kept.keep(list, bytes);
    Ok(Stored::Shared(posting))
}
