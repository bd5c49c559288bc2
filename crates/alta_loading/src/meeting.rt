// The terms that meet a test.
ghost use Rattle.std.specs.Prelude.{◌≡◌, ◌++◌, flat_map, slice_get, Some, IfOk, OnOk};
ghost use Rattle.std.specs.Cmp.Lexicographic.{slice_cmp};
ghost use Rattle.std.specs.List.{dedup, filter, list_any};
ghost use Rattle.std.specs.List.Sorted.{IsPermutation, IsSorted};
ghost use Rattle.std.specs.Ordering.{nat_cmp};
ghost use Rattle.std.specs.Str.{bytes_eq};
ghost use Rattle.alta_content.specs.Joining.{in_order};
ghost use Rattle.alta_content.specs.Lists.{terms_of};
ghost use Rattle.alta_loading.specs.Met.{all_terms, is_among, level_terms, level_terms_met, terms_met};
ghost use Rattle.alta_search.specs.Newest.{HasAdded, term_meets};

use alta_codec::Bytes;
use alta_machine::Test;
use alta_memlevel::MemLevel;
use alta_table::{OpenLevel, TermCursor};
use std::alloc::{AllocError, Global};

/// The terms of levels and of the newest documents that meet a test, in collating order, each once. A term in full is looked
/// up by halves in each level, and of a prefix only the terms that begin so are visited. Fails for want of memory alone.
pub fn terms_met(
    alloc: Global,
    levels: &[OpenLevel],
    newest: &MemLevel,
    test: &Test,
) -> Result<Vec<Bytes>, AllocError>
    requires { HasAdded newest.now }
    ensures { IfOk result (λ terms. terms.items ≡ terms_met levels.now newest.now.content test.now) }
{
    match test {
        Test::Is(term) => look_up(alloc, levels, newest, term),
        Test::Begins(start) => begin_so(alloc, levels, newest, start),
    }
}

// The term alone, or none where no level and no newest document has it.
fn look_up(
    alloc: Global,
    levels: &[OpenLevel],
    newest: &MemLevel,
    term: &Bytes,
) -> Result<Vec<Bytes>, AllocError>
    requires { HasAdded newest.now }
    ensures { IfOk result (λ terms. terms.items ≡ terms_met levels.now newest.now.content (Test.Is term.now)) }
{
    if !is_there(levels, newest, term.as_slice()) {
        return Ok(Vec::new(alloc));
    }
    let mut terms = Vec::with_capacity(alloc, 1)?;
    terms.push(term.copy()?)?;
    Ok(terms)
}

// Whether a level or a newest document has the term.
fn is_there(levels: &[OpenLevel], newest: &MemLevel, term: &[u8]) -> bool
    requires { HasAdded newest.now }
    ensures { result ≡ is_among term.now (all_terms levels.now newest.now.content) }
{
    if in_levels(levels, term) {
        return true;
    }
    !newest.get(term).is_empty()
}

// Whether a level has the term.
fn in_levels(levels: &[OpenLevel], term: &[u8]) -> bool
    ensures { result ≡ list_any (λ level. is_among term.now (level_terms level)) levels.now }
{
    levels.iter().any(|level| in_level(level, term))
}

// Whether this level has the term.
fn in_level(level: &OpenLevel, term: &[u8]) -> bool
    ensures { result ≡ is_among term.now (level_terms level.now) }
{
    match level.find(term) {
        Some(_row) => true,
        None => false,
    }
}

// The terms that begin so.
fn begin_so(
    alloc: Global,
    levels: &[OpenLevel],
    newest: &MemLevel,
    start: &Bytes,
) -> Result<Vec<Bytes>, AllocError>
    requires { HasAdded newest.now }
    ensures { IfOk result (λ terms. terms.items ≡ terms_met levels.now newest.now.content (Test.Begins start.now)) }
{
    let all = gather(alloc, levels, newest, start)?;
    let terms = in_order(all)?;
    Ok(terms)
}

// The terms that begin so of the newest documents, and behind them those of each level.
fn gather(
    alloc: Global,
    levels: &[OpenLevel],
    newest: &MemLevel,
    start: &Bytes,
) -> Result<Vec<Bytes>, AllocError>
    requires { HasAdded newest.now }
    ensures { IfOk result (λ all. all.items
        ≡ filter (term_meets (Test.Begins start.now)) (terms_of newest.now.content.lists)
        ++ flat_map (level_terms_met (Test.Begins start.now)) levels.now) }
{
    let mut all = newest.prefixed(start.as_slice())?;
    for level in levels {
        put_prefixed(alloc, &mut all, level, start)?;
    }
    Ok(all)
}

// The terms, and behind them those of a level that begin so.
fn put_prefixed(
    alloc: Global,
    all: &mut Vec<Bytes>,
    level: &OpenLevel,
    start: &Bytes,
) -> Result<(), AllocError>
    ensures { OnOk result (all.new.items ≡ all.old.items ++ level_terms_met (Test.Begins start.now) level.now) }
{
    let (first, behind) = level.prefixed(start.as_slice());
    if first == behind {
        return Ok(());
    }
    let mut cursor = level.at(first);
    for row in first..behind {
        all.push(copy_term(alloc, &cursor)?)?;
        cursor.next();
    }
    Ok(())
}

// The term of the row at which a cursor stands, in memory of its own.
fn copy_term(alloc: Global, cursor: &TermCursor<'_>) -> Result<Bytes, AllocError>
    ensures { IfOk result (λ term. slice_get (level_terms cursor.now.tables) cursor.now.row ≡ Some term) }
{
    let term = Vec::from_slice(alloc, cursor.term())?;
    Ok(Bytes::from_vec(term))
}

// The terms in collating order, each once.
fn in_order(terms: Vec<Bytes>) -> Result<Vec<Bytes>, AllocError>
    ensures { IfOk result (λ sorted. sorted.items ≡ in_order terms.items) }
{
    let mut sorted = terms;
    sort_terms(&mut sorted)?;
    drop_equal(&mut sorted);
    Ok(sorted)
}

// Sorts terms in collating order.
fn sort_terms(terms: &mut Vec<Bytes>) -> Result<(), AllocError>
    ensures same { IsPermutation terms.old.items terms.new.items }
    ensures sorted { OnOk result (IsSorted (slice_cmp nat_cmp) terms.new.items) }
{
    terms.sort_by(|a, b| a.as_slice().cmp(b.as_slice()))
}

// Drops each term that equals the one before.
fn drop_equal(terms: &mut Vec<Bytes>)
    ensures { terms.new.items ≡ dedup bytes_eq terms.old.items }
{
    terms.dedup_by(|a, b| a.as_slice() == b.as_slice());
}
