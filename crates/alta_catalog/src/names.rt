// The live documents' names with their numbers, in the order of bytes.
ghost use Rattle.std.specs.List.Sorted.{IsPermutation, IsSorted};
ghost use Rattle.std.specs.Prelude.{◌≡◌, ◌++◌, ◌∷◌, [], map, IfOk, OnOk};
ghost use Rattle.alta_content.specs.All.{rows_of_levels, shared_rows};
ghost use Rattle.alta_content.specs.Rows.{end_of};
ghost use Rattle.alta_meaning.specs.Opened.{live_in};
ghost use Rattle.alta_catalog.specs.Names.{by_name, name_row};

use crate::Deletions;
use crate::lists::{NameRow, Names};
use alta_codec::{Loc, Text};
use alta_content::{DocRow, LevelRows};
use std::alloc::{AllocError, Global};
use std::convert::AsSlice;
use std::rc::Rc;

/// The names of the live documents of these rows with their numbers, in the order of bytes.
pub(crate) fn names_in(
    alloc: Global,
    runs: &[Rc<LevelRows>],
    gone: &Deletions,
) -> Result<Names, AllocError>
    ensures rows { IfOk result (IsPermutation
        (map name_row (live_in gone.now (rows_of_levels (map shared_rows runs.now))))) }
    ensures sorted { IfOk result (IsSorted by_name) }
{
    let mut names = live_names(alloc, runs, gone)?;
    sort(&mut names);
    Ok(Names::from_vec(names))
}

// Sorts the rows by their names, in the order of bytes.
fn sort(rows: &mut Vec<NameRow>)
    ensures same { IsPermutation rows.old.items rows.new.items }
    ensures sorted { IsSorted by_name rows.new.items }
{
    rows.sort_unstable_by(|a, b| a.name.as_str().cmp(b.name.as_str()));
}

// The names of the live documents of these rows with their numbers, in the order of the rows.
fn live_names(
    alloc: Global,
    runs: &[Rc<LevelRows>],
    gone: &Deletions,
) -> Result<Vec<NameRow>, AllocError>
    ensures { IfOk result (λ names. names.items
        ≡ map name_row (live_in gone.now (rows_of_levels (map shared_rows runs.now)))) }
{
    let mut names = Vec::new(alloc);
    for run in runs {
        put_names(alloc, &mut names, run, gone)?;
    }
    Ok(names)
}

// Adds the names of the live documents of a run.
fn put_names(
    alloc: Global,
    names: &mut Vec<NameRow>,
    rows: &LevelRows,
    gone: &Deletions,
) -> Result<(), AllocError>
    ensures { OnOk result (names.new.items ≡ names.old.items ++ map name_row (live_in gone.now rows.now)) }
{
    let ends = rows.ends();
    for (i, row) in rows.as_slice().iter().enumerate() {
        put_name(alloc, names, row, ends[i], gone)?;
    }
    Ok(())
}

// Adds the name of a row that ends there, unless its document is gone.
fn put_name(
    alloc: Global,
    names: &mut Vec<NameRow>,
    row: &DocRow,
    end: Loc,
    gone: &Deletions,
) -> Result<(), AllocError>
    requires { end ≡ end_of row.now }
    ensures { OnOk result (names.new.items ≡ names.old.items ++ map name_row (live_in gone.now (row.now ∷ []))) }
{
    if gone.holds(end) {
        return Ok(());
    }
    names.push(named(alloc, row.name.as_str(), row.number)?)?;
    Ok(())
}

fn named(alloc: Global, name: &str, number: u64) -> Result<NameRow, AllocError>
    ensures { IfOk result (λ row. row ≡ record { name = name.now; number = number }) }
{
    let name = String::from_str(alloc, name)?;
    Ok(NameRow {
        name: Text::from_string(name),
        number,
    })
}
