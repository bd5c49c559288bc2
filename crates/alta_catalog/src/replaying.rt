// The documents that the entries of a journal leave.
ghost use Rattle.std.specs.Prelude.{◌≡◌, ◌⊎◌, ◌+◌, ◌++◌, ◌<◌, ℕ, List, Err, IfOk, IfErr, OnOk, All};
ghost use Rattle.alta_journal.specs.Entry.{KeepTexts, KeepsRules, MayBeRecorded};
ghost use Rattle.alta_journal.specs.Lent.{entry_of};
ghost use Rattle.alta_journal.specs.declared.entry.Entry.{Entry};
ghost use Rattle.alta_journal.specs.declared.entry.Entry.TheVariants.{Add, Replace};
ghost use Rattle.alta_machine.specs.declared.document.State.{State};
ghost use Rattle.alta_meaning.specs.Entries.{Allows, AllowsAll, after_entries, entries_in, IsRefusedAt};
ghost use Rattle.alta_machine.specs.Changes.{has_named};
ghost use Rattle.alta_root.specs.declared.root.Root.{Root};
ghost use Rattle.alta_catalog.specs.Applying.{Applies, IsEntered};
ghost use Rattle.alta_catalog.specs.Knowing.{Follows, Knows, KnowsBy, gone_of, levels_of};
ghost use Rattle.alta_catalog.specs.declared.fault.CatalogFault.TheVariants.{Memory, Damaged};

use crate::CatalogFault;
use crate::catalog::Catalog;
use alta_journal::{Entry, LentEntry, Placed};
use alta_machine::MetaFault;
use std::alloc::Global;

// How far behind its gate the payload of a record stands.
const PAYLOAD: u64 = 5;

/// Applies entries in order to a catalog.
///
/// # Errors
///
/// `Damaged` at the first entry that is not allowed where it stands: one that adds a document whose name a live one has, or for which no
/// number is left, one that deletes a number that no live document has, or one that replaces a number that no live document of its name
/// has, or for which no number is left. The place is that of its record's payload. `Memory` where
/// memory is wanting. After both the catalog may no longer be used.
pub fn apply_entries(
    alloc: Global,
    catalog: &mut Catalog,
    found: &[Placed],
) -> Result<(), CatalogFault>
    requires knows { (s : State) × Knows catalog.old s }
    requires sound { (version : ℕ) × All (λ p. MayBeRecorded version p.entry) found.now }
    ensures applied { (s : State) → (knows : Knows catalog.old s)
        → OnOk result (AllowsAll s (entries_in found.now)
        × KnowsBy catalog.new knows.olds (after_entries s (entries_in found.now))) }
    ensures damaged { (s : State) → Knows catalog.old s → All (λ p. p.place < 4294967296) found.now → (place : ℕ)
        → result ≡ Err (Damaged place) → IsRefusedAt s found.now place }
    ensures levels { levels_of catalog.new ≡ levels_of catalog.old }
    ensures follows { (root : Root) → (entries : List Entry) → Follows catalog.old root entries
        → OnOk result (Follows catalog.new root (entries ++ entries_in found.now)) }
    ensures only { IfErr result (λ e. (e ≡ Memory) ⊎ ((place : ℕ) × (e ≡ Damaged place))) }
{
    for placed in found {
        match apply_entry(alloc, catalog, &placed.entry) {
            Ok(true) => {}
            Ok(false) => return Err(CatalogFault::Damaged(payload_place(placed))),
            Err(_) => return Err(CatalogFault::Memory),
        }
    }
    Ok(())
}

// Where the payload of a record stands.
fn payload_place(placed: &Placed) -> u64
    ensures { placed.now.place < 4294967296 → result ≡ placed.now.place + 5 }
{
    placed.place.saturating_add(PAYLOAD)
}

// Applies an entry, if it is allowed here, and answers whether it is. Where it is not, nothing has changed. Documents that are gone stay
// gone.
fn apply_entry(alloc: Global, catalog: &mut Catalog, entry: &Entry) -> Result<bool, MetaFault>
    requires knows { (s : State) × Knows catalog.old s }
    requires sound { (version : ℕ) × MayBeRecorded version entry.now }
    ensures { Applies entry.now catalog.old catalog.new result }
{
    match entry {
        Entry::Add { name, title, body } => {
            add(alloc, catalog, name.as_str(), title.as_str(), body.as_str())
        }
        Entry::Delete { number } => Ok(catalog.delete(*number)?),
        Entry::Replace {
            number,
            name,
            title,
            body,
        } => replace(
            alloc,
            catalog,
            *number,
            name.as_str(),
            title.as_str(),
            body.as_str(),
        ),
    }
}

/// Applies an entry that is allowed here. No name is looked up, and documents that are gone stay gone.
///
/// # Errors
///
/// `Memory` where memory is wanting: the catalog may no longer be used.
pub fn enter_allowed(
    alloc: Global,
    catalog: &mut Catalog,
    entry: &LentEntry<'_>,
) -> Result<(), MetaFault>
    requires knows { (s : State) × Knows catalog.old s }
    requires rules { KeepsRules (entry_of entry.now) }
    requires allowed { (s : State) → Knows catalog.old s → Allows s (entry_of entry.now) }
    ensures { IsEntered (entry_of entry.now) catalog.old catalog.new result }
{
    match *entry {
        LentEntry::Add { name, title, body } => catalog.add(alloc, name, title, body),
        LentEntry::Delete { number } => {
            let _there = catalog.delete(number)?;
            Ok(())
        }
        LentEntry::Replace {
            number,
            name,
            title,
            body,
        } => put_again(alloc, catalog, number, name, title, body),
    }
}

// Deletes the document with this number and this name, and adds another of that name, for which a number is left.
fn put_again(
    alloc: Global,
    catalog: &mut Catalog,
    number: u64,
    name: &str,
    title: &str,
    body: &str,
) -> Result<(), MetaFault>
    requires knows { (s : State) × Knows catalog.old s }
    requires sound { KeepTexts name.now title.now body.now }
    requires allowed { (s : State) → Knows catalog.old s → Allows s (Replace number name.now title.now body.now) }
    ensures { IsEntered (Replace number name.now title.now body.now) catalog.old catalog.new result }
{
    let _there = catalog.delete(number)?;
    catalog.add(alloc, name, title, body)?;
    Ok(())
}

// Deletes the document with this number, if it has this name and a number is left, and adds another of that name.
fn replace(
    alloc: Global,
    catalog: &mut Catalog,
    number: u64,
    name: &str,
    title: &str,
    body: &str,
) -> Result<bool, MetaFault>
    requires knows { (s : State) × Knows catalog.old s }
    requires sound { KeepTexts name.now title.now body.now }
    ensures { Applies (Replace number name.now title.now body.now) catalog.old catalog.new result }
{
    if !catalog.has_room() {
        return Ok(false);
    }
    if !has_name_with(catalog, name, number) {
        return Ok(false);
    }
    put_again(alloc, catalog, number, name, title, body)?;
    Ok(true)
}

// Whether a live document has this name and this number.
fn has_name_with(catalog: &Catalog, name: &str, number: u64) -> bool
    ensures { (s : State) → Knows catalog.now s → result ≡ has_named name.now number s }
{
    match catalog.number_of(name) {
        Some(known) => known == number,
        None => false,
    }
}

// Adds a document, if no other has its name and a number is left.
fn add(
    alloc: Global,
    catalog: &mut Catalog,
    name: &str,
    title: &str,
    body: &str,
) -> Result<bool, MetaFault>
    requires knows { (s : State) × Knows catalog.old s }
    requires sound { KeepTexts name.now title.now body.now }
    ensures applies { Applies (Add name.now title.now body.now) catalog.old catalog.new result }
    ensures gone { IfOk result (λ allowed. gone_of catalog.new ≡ gone_of catalog.old) }
{
    if !catalog.has_room() {
        return Ok(false);
    }
    if catalog.number_of(name).is_some() {
        return Ok(false);
    }
    catalog.add(alloc, name, title, body)?;
    Ok(true)
}
