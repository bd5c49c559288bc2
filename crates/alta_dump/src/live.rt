// The rows of the documents that are live, and the places of their cells.
ghost use Rattle.std.specs.Prelude.{◌≡◌, ◌+◌, ◌-◌, ◌≤◌, ◌<◌, ◌++◌, ℕ, [], map, length, All, Contains, IfOk, OnOk, List, slice_index, slice_index_or};
ghost use Rattle.std.specs.List.{concat};
ghost use Rattle.alta_codec.specs.declared.location.TheConstants.{TOP};
ghost use Rattle.alta_codec.specs.Rising.{IsRising, first_from};
ghost use Rattle.alta_content.specs.Cells.{locations_from};
ghost use Rattle.alta_content.specs.Rows.{RowsRise, end_of, ends_of, live_rows};
ghost use Rattle.alta_dump.specs.Shown.{dump_tests, places_of};
ghost use Rattle.alta_machine.specs.declared.document.Document.{Document};
ghost use Rattle.alta_content.specs.All.{IsPast};
ghost use Rattle.alta_search.specs.Answers.{answers_in};
ghost use Rattle.alta_search.specs.Lists.{count_lists, count_locations, term_lists};
ghost use Rattle.alta_search.specs.Shown.{ShowsDocuments};
ghost use Rattle.alta_search.specs.Told.{no_row, rows_at};
ghost use Rattle.alta_search.specs.Words.{IsSoundTerm, term_left, term_list, term_place};

use alta_codec::{Loc, Steps, TOP};
use alta_content::{AllRows, DocRow, RowWalk};
use alta_gather::Places;
use alta_reader::Reader;
use alta_search::{Snapshot, TermLists, TermReader, chain, live_row};
use std::alloc::{AllocError, Global};
use std::sync::ledger::Ledger;

/// The indexes of the rows of the live documents, in order, by one walk over the ends of documents.
pub(crate) fn live<L: Ledger>(
    alloc: Global,
    snapshot: &Snapshot,
    steps: &mut Steps<L>,
) -> Result<Vec<usize>, AllocError>
    ensures inside { IfOk result (λ live. All (λ i. i < length snapshot.now.rows) live.items) }
    ensures rows { IfOk result (λ live. (documents : List Document) → snapshot.now.tests ≡ dump_tests
        → ShowsDocuments snapshot.now documents
        → rows_at snapshot.now.rows live.items ≡ live_rows snapshot.now.gone snapshot.now.rows) }
    ensures steps { steps.new ≤ steps.old + (count_lists (slice_index_or snapshot.now.cuts 0 [])
        + count_locations (slice_index_or snapshot.now.cuts 0 [])) }
{
    let ends = snapshot.terms(0);
    let rows = snapshot.rows();
    let gone = snapshot.gone();
    match ends.first() {
        Some(first) => {
            let live = live_of(alloc, first, rows, gone, steps)?;
            Ok(live)
        }
        None => Ok(Vec::new(alloc)),
    }
}

// The indexes of the rows that end in the lists of a term and are not deleted.
fn live_of<L: Ledger>(
    alloc: Global,
    term: &TermLists,
    rows: &AllRows,
    gone: &[Loc],
    steps: &mut Steps<L>,
) -> Result<Vec<usize>, AllocError>
    requires rising { IsRising (concat (term_lists term.now)) }
    requires gone { IsRising gone.now }
    ensures inside { IfOk result (λ live. All (λ i. i < length rows.now) live.items) }
    ensures rows { IfOk result (λ live. rows_at rows.now live.items
        ≡ answers_in (concat (term_lists term.now)) gone.now 0 rows.now) }
    ensures steps { steps.new ≤ steps.old + (length (term_lists term.now) + length (concat (term_lists term.now))) }
{
    let mut reader = chain(alloc, &term.levels, steps)?;
    live_ends(alloc, &mut reader, rows, gone, steps)
}

// The indexes of the rows that end in a list and are not deleted. The reader was not moved before.
fn live_ends<L: Ledger>(
    alloc: Global,
    ends: &mut TermReader<'_>,
    all: &AllRows,
    gone: &[Loc],
    steps: &mut Steps<L>,
) -> Result<Vec<usize>, AllocError>
    requires sound { IsSoundTerm ends.old }
    requires unmoved { term_place ends.old ≡ first_from (term_list ends.old) 0 }
    requires gone { IsRising gone.now }
    ensures inside { IfOk result (λ live. All (λ i. i < length all.now) live.items) }
    ensures rows { IfOk result (λ live. rows_at all.now live.items
        ≡ answers_in (term_list ends.old) gone.now 0 all.now) }
    ensures steps { steps.new ≤ steps.old + term_left ends.old }
{
    let mut rows = all.walk();
    let mut live = Vec::new(alloc);
    'ends: while ends.loc() < TOP {
        put_live(&mut live, &mut rows, gone, ends.loc())?;
        ends.next(steps);
    }
    Ok(live)
}

// Adds the index of the row that ends here, if there is one and it is not deleted. The rows are looked at from the last one on.
fn put_live(
    live: &mut Vec<usize>,
    rows: &mut RowWalk<'_>,
    gone: &[Loc],
    end: Loc,
) -> Result<(), AllocError>
    requires past { IsPast rows.old end }
    requires gone { IsRising gone.now }
    ensures rows { rows.new.rows ≡ rows.old.rows }
    ensures past { IsPast rows.new end }
    ensures inside { OnOk result (All (λ i. i < length rows.old.rows) live.old.items
        → All (λ i. i < length rows.old.rows) live.new.items) }
    ensures taken { OnOk result ((list : List ℕ) → Contains list end → IsRising (ends_of rows.old.rows)
        → rows_at rows.old.rows live.new.items ++ answers_in list gone.now (end + 1) rows.old.rows
        ≡ rows_at rows.old.rows live.old.items ++ answers_in list gone.now end rows.old.rows) }
{
    match live_row(rows, gone, end) {
        Some(index) => {
            live.push(index)?;
            Ok(())
        }
        None => Ok(()),
    }
}

/// The row of this one of the live documents.
pub(crate) fn row_at<'a>(rows: &'a AllRows, live: &[usize], i: usize) -> &'a DocRow
    requires rising { IsRising (ends_of rows.now) }
    requires inside { All (λ i. i < length rows.now) live.now }
    requires within { i < length live.now }
    ensures row { result.now ≡ slice_index_or (rows_at rows.now live.now) i no_row }
    ensures below { end_of result.now < TOP }
{
    rows.row(live[i])
}

/// The places of the cells of these rows, in order. A place that is not above those before is left out; rows that rise have none.
pub(crate) fn places(alloc: Global, rows: &AllRows, live: &[usize]) -> Result<Places, AllocError>
    requires rising { IsRising (ends_of rows.now) }
    requires inside { All (λ i. i < length rows.now) live.now }
    ensures { IfOk result (λ places. RowsRise (rows_at rows.now live.now)
        → places ≡ places_of (rows_at rows.now live.now)) }
{
    let mut places = Places::new(alloc);
    'live: for i in 0..live.len() {
        places = with_row(places, row_at(rows, live, i))?;
    }
    Ok(places)
}

// These places, and those of a row that are above them.
fn with_row(places: Places, row: &DocRow) -> Result<Places, AllocError>
    requires { end_of row.now < TOP }
    ensures { IfOk result (λ more. 1 ≤ row.now.first → All (λ p. p < row.now.first) places
        → more ≡ places ++ locations_from row.now.first row.now.cells) }
{
    let more = places.with(row.first, row.first + row.cells)?;
    Ok(more)
}
