// The terms, each with its rising locations, found by a hash of their bytes.
// An add looks up each term of each cell, and on the way down a tree most of its time went into comparing terms. So terms stand in a
// map by hash, and are sorted only where order is asked for: all by a drain, and those that begin so by a search. The seed of the
// hash is fixed: whoever picks words that collide makes adds slow, by the terms of one half of the journal at most, and no answer
// wrong.
ghost use Rattle.std.specs.Prelude.{◌≡◌, List, ℕ, ◌+◌, ◌<◌, ◌≤◌, ◌++◌, ◌∷◌, [], cond, length, OnOk};
ghost use Rattle.std.specs.Str.{bytes_eq};
ghost use Rattle.alta_codec.specs.declared.location.TheConstants.{TOP};
ghost use Rattle.alta_machine.specs.Cells.{cell_holds};
ghost use Rattle.alta_memlevel.specs.Added.{places_of};
ghost use Rattle.alta_memlevel.specs.Lists.{list_in, Adds, AddsAt, IsIndex};

use alta_codec::{Len, Loc};
use alta_machine::Cell;
use std::alloc::{AllocError, Global};
use std::collections::HashMap;

/// The locations of each term that has one.
pub type Lists = HashMap<Vec<u8>, Vec<Loc>>;

/// The locations of a term: none where it has none.
#[tactic(auto, using(crate::proofs::Keyed::found_list, crate::proofs::Keyed::no_list))]
pub fn list_of<'a>(lists: &'a Lists, term: &[u8]) -> &'a [Loc]
    ensures { result.now ≡ list_in lists.now.entries term.now }
{
    match lists.get(term) {
        Some(list) => list.as_slice(),
        None => &[],
    }
}

/// Adds a location at the end of the term's, or the term with it as its first.
fn put(alloc: Global, lists: &mut Lists, term: &[u8], location: Loc) -> Result<(), AllocError>
    requires { IsIndex lists.old.entries }
    ensures { OnOk result (Adds lists.old.entries lists.new.entries
        (λ other. cond (bytes_eq term.now other) (location ∷ []) [])) }
{
    if let Some(list) = lists.get_mut(term) {
        list.push(location)?;
        return Ok(());
    }
    let key = Vec::from_slice(alloc, term)?;
    let list = vec![in alloc; location]?;
    lists.insert(key, list)?;
    Ok(())
}

/// Adds a location to each term of the cell.
fn put_cell(alloc: Global, lists: &mut Lists, cell: &Cell, location: Loc) -> Result<(), AllocError>
    requires { IsIndex lists.old.entries }
    ensures { OnOk result (Adds lists.old.entries lists.new.entries
        (λ other. cond (cell_holds other cell.now) (location ∷ []) [])) }
{
    for i in 0..cell.len() {
        put_at(alloc, lists, cell, i, location)?;
    }
    Ok(())
}

/// Adds a location to the term at the index, which is none of those before it.
fn put_at(
    alloc: Global,
    lists: &mut Lists,
    cell: &Cell,
    i: usize,
    location: Loc,
) -> Result<(), AllocError>
    requires within { i < length cell.now }
    requires index { IsIndex lists.old.entries }
    ensures index { OnOk result (IsIndex lists.new.entries) }
    ensures added { OnOk result (AddsAt cell.now i location lists.old.entries lists.new.entries) }
{
    match cell.get(i) {
        Some(term) => {
            put(alloc, lists, term, location)?;
            Ok(())
        }
        None => Ok(()),
    }
}

/// Adds the locations of a document's cells, the first of which stands at `first`.
pub fn put_cells(
    alloc: Global,
    lists: &mut Lists,
    first: Loc,
    cells: &[Cell],
) -> Result<(), AllocError>
    requires index { IsIndex lists.old.entries }
    requires below { first + length cells.now < TOP + 1 }
    ensures { OnOk result (Adds lists.old.entries lists.new.entries (λ other. places_of first other cells.now)) }
{
    let mut location = first;
    for cell in cells {
        put_cell(alloc, lists, cell, location)?;
        location += 1;
    }
    Ok(())
}
