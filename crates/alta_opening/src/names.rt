// The names of live documents.
ghost use Rattle.std.specs.Prelude.{◌≡◌, ◌≢◌, ◌++◌, ◌∷◌, [], ℕ, true, Ok, Err, IfOk, OnOk};
ghost use Rattle.alta_codec.specs.Rising.{IsRising};
ghost use Rattle.alta_content.specs.Rows.{AreDocuments, IsPlaced, ends_among};
ghost use Rattle.alta_meaning.specs.Known.{is_taken, is_taken_by};
ghost use Rattle.alta_meaning.specs.Opened.{live_in, names_in, table_rows};
ghost use Rattle.alta_meaning.specs.Names.{AreNames};
ghost use Rattle.alta_opening.specs.Names.{live_behind, may_join};
ghost use Rattle.alta_disk.specs.declared.fault.LoadFault.TheVariants.{Damaged, Disk as DiskFault};

use alta_codec::Loc;
use alta_content::DocRow;
use alta_disk::LoadFault;
use alta_names::NameTable;
use alta_table::OpenLevel;
use std::alloc::{AllocError, Global};

// Whether the row's document is deleted.
fn is_deleted(deleted: &[Loc], row: &DocRow) -> bool
    requires rising { IsRising deleted.now }
    requires placed { IsPlaced row.now }
    ensures { result ≡ ends_among deleted.now row.now }
{
    let end = row.first + row.cells - 1;
    deleted.binary_search(&end).is_ok()
}

// Whether the row's document is live and has the name.
fn is_named(deleted: &[Loc], row: &DocRow, name: &str) -> bool
    requires rising { IsRising deleted.now }
    requires placed { IsPlaced row.now }
    ensures { result ≡ is_taken name.now (live_in deleted.now (row.now ∷ [])) }
{
    if is_deleted(deleted, row) {
        return false;
    }
    row.name.as_str() == name
}

// Whether the live document with this number, of these rows, has the name.
fn is_in_rows(deleted: &[Loc], rows: &[DocRow], number: u64, name: &str) -> bool
    requires rising { IsRising deleted.now }
    requires rows { AreDocuments rows.now }
    ensures { result ≡ is_taken_by name.now number (live_in deleted.now rows.now) }
{
    match rows.binary_search_by(|row| row.number.cmp(&number)) {
        Ok(index) => is_named(deleted, &rows[index], name),
        Err(_place) => false,
    }
}

// Whether the live document with this number, of these levels, has the name.
fn is_in_levels(deleted: &[Loc], levels: &[OpenLevel], number: u64, name: &str) -> bool
    requires { IsRising deleted.now }
    ensures { result ≡ is_taken_by name.now number (live_in deleted.now (table_rows levels.now)) }
{
    for level in levels {
        if is_in_rows(deleted, level.documents(), number, name) {
            return true;
        }
    }
    false
}

// Whether a live document of the levels, or of the rows behind them, has the name. Where one has its hash, the name of its number alone is
// looked at, and then those that are kept by their texts.
fn has_live(
    names: &NameTable,
    deleted: &[Loc],
    levels: &[OpenLevel],
    behind: &[DocRow],
    name: &str,
) -> bool
    requires rising { IsRising deleted.now }
    requires behind { AreDocuments behind.now }
    requires names { AreNames names.now (live_behind deleted.now levels.now behind.now) }
    ensures { result ≡ is_taken name.now (live_behind deleted.now levels.now behind.now) }
{
    match names.likely(name) {
        None => names.other(name).is_some(),
        Some(number) => {
            if is_in_levels(deleted, levels, number, name) {
                return true;
            }
            if is_in_rows(deleted, behind, number, name) {
                return true;
            }
            names.other(name).is_some()
        }
    }
}

// Whether a row's document is deleted, or no live one before has its name. The name of one that is not deleted is noted.
fn join(
    alloc: Global,
    names: &mut NameTable,
    deleted: &[Loc],
    levels: &[OpenLevel],
    behind: &[DocRow],
    row: &DocRow,
) -> Result<bool, AllocError>
    requires rising { IsRising deleted.now }
    requires before { AreDocuments behind.now }
    requires placed { IsPlaced row.now }
    requires names { AreNames names.old (live_behind deleted.now levels.now behind.now) }
    ensures free { IfOk result (λ joins. joins
        ≡ may_join deleted.now (live_behind deleted.now levels.now behind.now) row.now) }
    ensures names { IfOk result (λ joins. joins ≡ true
        → AreNames names.new (live_behind deleted.now levels.now behind.now
        ++ live_in deleted.now (row.now ∷ []))) }
{
    if is_deleted(deleted, row) {
        return Ok(true);
    }
    let name = row.name.as_str();
    if has_live(names, deleted, levels, behind, name) {
        return Ok(false);
    }
    names.note(alloc, name, row.number)?;
    Ok(true)
}

/// Notes the names of the live documents of a level behind others, for all of whose rows room is made at once. A name that a live document
/// before has is damage at its place. After an error some of the level's names are noted.
pub(crate) fn note_names(
    alloc: Global,
    names: &mut NameTable,
    deleted: &[Loc],
    levels: &[OpenLevel],
    level: &OpenLevel,
) -> Result<(), LoadFault>
    requires rising { IsRising deleted.now }
    requires names { AreNames names.old (live_in deleted.now (table_rows levels.now)) }
    ensures found { OnOk result (names_in deleted.now levels.now level.now
        ≡ Ok (live_behind deleted.now levels.now level.now.documents)) }
    ensures names { OnOk result (AreNames names.new (live_behind deleted.now levels.now level.now.documents)) }
    ensures second { (place : ℕ) → result ≡ Err (Damaged place)
        → names_in deleted.now levels.now level.now ≡ Err place }
    ensures disk { result ≢ Err DiskFault }
{
    let rows = level.documents();
    names.reserve(rows.len())?;
    for (i, row) in rows.iter().enumerate() {
        if !join(alloc, names, deleted, levels, &rows[..i], row)? {
            return Err(LoadFault::Damaged(level.name_place(alloc, i)?));
        }
    }
    Ok(())
}
