// Which lists have each place.
ghost use Rattle.std.specs.Prelude.{◌≡◌, ◌+◌, ◌≤◌, map, length, take, drop, All, IfOk, OnOk};
ghost use Rattle.std.specs.List.{concat};
ghost use Rattle.alta_codec.specs.Rising.{IsRising};
ghost use Rattle.alta_gather.specs.Holding.{IsMarked, held_in};
ghost use Rattle.alta_gather.specs.declared.held.Held.{Held};
ghost use Rattle.alta_search.specs.Lists.{IsCut, count_lists, count_locations, term_lists};

use alta_codec::Steps;
use alta_gather::{ListIndex, PackedHeld, Places, mark};
use alta_search::{TermLists, chain};
use std::alloc::{AllocError, Global};
use std::sync::ledger::Ledger;

/// Which of these terms stand at each of these places, by one walk over the lists of each term. A term counts by its index.
pub(crate) fn gather<L: Ledger>(
    alloc: Global,
    places: &Places,
    terms: &[TermLists],
    steps: &mut Steps<L>,
) -> Result<Vec<PackedHeld>, AllocError>
    requires cut { IsCut (map term_lists terms.now) }
    ensures held { IfOk result (λ held. held.items ≡ map (held_in (map concat (map term_lists terms.now))) places.now) }
    ensures steps { steps.new ≤ steps.old + (count_lists (map term_lists terms.now)
        + count_locations (map term_lists terms.now)) }
{
    let mut held = never(alloc, places.len())?;
    for (i, term) in terms.iter().enumerate() {
        let index = index_of(i)?;
        walk(alloc, &mut held, places, term, index, steps)?;
    }
    Ok(held)
}

// The index of a term as the index of a list, of which more terms than memory holds would be wanting.
fn index_of(index: usize) -> Result<ListIndex, AllocError>
    ensures { IfOk result (λ i. i ≡ index) }
{
    match ListIndex::new(index) {
        Some(index) => Ok(index),
        None => Err(AllocError),
    }
}

// So many places at which no term stands.
fn never(alloc: Global, count: usize) -> Result<Vec<PackedHeld>, AllocError>
    ensures long { IfOk result (λ held. length held.items ≡ count) }
    ensures never { IfOk result (λ held. All (λ h. h ≡ Held.Never) held.items) }
{
    vec![in alloc; PackedHeld::never(); count]
}

// Marks the places of a term, which has this index, by one walk over its lists.
fn walk<L: Ledger>(
    alloc: Global,
    held: &mut [PackedHeld],
    places: &Places,
    term: &TermLists,
    index: ListIndex,
    steps: &mut Steps<L>,
) -> Result<(), AllocError>
    requires paired { length held.old ≡ length places.now }
    requires rising { IsRising (concat (term_lists term.now)) }
    ensures marked { OnOk result (IsMarked places.now (concat (term_lists term.now)) index held.old held.new) }
    ensures steps { steps.new ≤ steps.old + (length (term_lists term.now) + length (concat (term_lists term.now))) }
{
    let mut reader = chain(alloc, &term.levels, steps)?;
    mark(held, places, &mut reader, index, steps);
    Ok(())
}

/// So many of them, from an index on, or as many as there are.
pub(crate) fn some_from(held: &[PackedHeld], from: usize, count: u64) -> &[PackedHeld]
    ensures { result.now ≡ take count (drop from held.now) }
{
    let behind = &held[from.min(held.len())..];
    let count = (behind.len() as u64).min(count);
    &behind[..count as usize]
}
