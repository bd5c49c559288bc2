// Levels that come in place of others, in memory that is taken before.
ghost use Rattle.std.specs.Prelude.{◌≡◌, ◌+◌, ◌++◌, ◌<◌, ◌≤◌, [], IfOk};
ghost use Rattle.std.specs.Vec.{vec_capacity, vec_len};
ghost use Rattle.alta_codec.specs.Rising.{IsRising};
ghost use Rattle.alta_content.specs.Rows.{RowsRise};
ghost use Rattle.alta_content.specs.Ends.{ShowsRising};
ghost use Rattle.alta_meaning.specs.Opened.{table_rows};
ghost use Rattle.alta_catalog.specs.Replacing.{deleted_of, ends_in, is_end, some_in};

use crate::Deletions;
use crate::finding::end_of;
use alta_codec::Loc;
use alta_content::DocRow;
use alta_table::OpenLevel;
use std::alloc::{AllocError, Global};

/// What a catalog has once other levels stand, in memory that was taken before.
#[derive(Drop)]
pub struct PreparedLevels {
    // Room for the tables of all levels to come.
    pub(crate) levels: Vec<OpenLevel>,
    // The ends of their documents that are gone.
    pub(crate) deleted: Deletions,
}

impl PreparedLevels {
    /// The ends that are deleted once the levels stand, rising.
    pub fn deleted(&self) -> &[Loc]
        ensures { ShowsRising (deleted_of self.now) result.now }
    {
        self.deleted.ends()
    }
}

// ---- the ends to come

/// Those of rising ends that are ends of rows of levels, or of rows before and behind them. Each end is looked up by halves, in one level
/// mostly.
pub(crate) fn ends_to_come(
    alloc: Global,
    gone: &[Loc],
    oldest: &[DocRow],
    levels: &[OpenLevel],
    newest: &[DocRow],
) -> Result<Vec<Loc>, AllocError>
    requires rising { IsRising gone.now }
    requires rows { RowsRise (oldest.now ++ (table_rows levels.now ++ newest.now)) }
    ensures value { IfOk result (λ ends. ends.items
        ≡ ends_in gone.now (oldest.now ++ (table_rows levels.now ++ newest.now))) }
    ensures rising { IfOk result (λ ends. IsRising ends.items) }
{
    let mut ends = Vec::new(alloc);
    for end in gone {
        if comes(oldest, levels, newest, *end) {
            ends.push(*end)?;
        }
    }
    Ok(ends)
}

// Whether a row to come ends there.
fn comes(oldest: &[DocRow], levels: &[OpenLevel], newest: &[DocRow], end: Loc) -> bool
    requires { RowsRise (oldest.now ++ (table_rows levels.now ++ newest.now)) }
    ensures { result ≡ is_end (oldest.now ++ (table_rows levels.now ++ newest.now)) end }
{
    ends_here(oldest, end) || ends_in_level(levels, end) || ends_here(newest, end)
}

// Whether a row of a level ends there.
fn ends_in_level(levels: &[OpenLevel], end: Loc) -> bool
    ensures { result ≡ is_end (table_rows levels.now) end }
{
    for level in levels {
        if ends_here(level.documents(), end) {
            return true;
        }
    }
    false
}

// Whether one of these rows ends there: the last one that begins at or before it.
fn ends_here(rows: &[DocRow], end: Loc) -> bool
    requires { RowsRise rows.now }
    ensures { result ≡ is_end rows.now end }
{
    let Some(last) = rows.last() else {
        return false;
    };
    if end_of(last) < end {
        return false;
    }
    let behind = rows.partition_point(|row| row.first <= end);
    behind > 0 && end_of(&rows[behind - 1]) == end
}

// ---- levels between others

/// Puts items between two others, in room that was taken before.
pub(crate) fn put_between<T: Drop>(
    items: &mut Vec<T>,
    room: Vec<T>,
    first: Option<T>,
    last: Option<T>,
)
    requires empty { room.items ≡ [] }
    requires room { vec_len items.old + 2 ≤ vec_capacity room }
    ensures { items.new.items ≡ some_in first ++ (items.old.items ++ some_in last) }
{
    let mut all = room;
    put_some(&mut all, first);
    let Ok(()) = all.append(items) else {
        unreachable!()
    };
    put_some(&mut all, last);
    *items = all;
}

// Puts an item at the end, if there is one.
fn put_some<T: Drop>(items: &mut Vec<T>, item: Option<T>)
    requires { vec_len items.old < vec_capacity items.old }
    ensures items { items.new.items ≡ items.old.items ++ some_in item }
    ensures len { vec_len items.new ≤ vec_len items.old + 1 }
    ensures capacity { vec_capacity items.old ≤ vec_capacity items.new }
{
    if let Some(item) = item {
        let Ok(()) = items.push(item) else {
            unreachable!()
        };
    }
}
