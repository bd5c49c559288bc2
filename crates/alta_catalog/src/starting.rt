// What a catalog starts from: the deleted ends of the levels, and what is counted of their live documents.
ghost use Rattle.std.specs.Prelude.{◌≡◌, ◌+◌, ◌++◌, ◌∷◌, ◌<◌, ◌≤◌, ◌^◌, [], ℕ, List, IfOk};
ghost use Rattle.std.specs.List.{All};
ghost use Rattle.alta_codec.specs.Rising.{IsRising};
ghost use Rattle.alta_codec.specs.declared.location.TheConstants.{TOP};
ghost use Rattle.alta_content.specs.Rows.{AreDocuments, end_of as end_in};
ghost use Rattle.alta_content.specs.declared.document.DocRow.{DocRow};
ghost use Rattle.alta_meaning.specs.Opened.{table_rows};
ghost use Rattle.alta_catalog.specs.Counting.{IsTally, cells_in};

use crate::Deletions;
use crate::catalog::MARKS;
use crate::finding::end_of;
use alta_codec::Loc;
use alta_content::DocRow;
use alta_table::OpenLevel;
use std::alloc::{AllocError, Global};

/// The deleted ends of rising locations.
pub(crate) fn ends_of(alloc: Global, ends: &[Loc]) -> Result<Deletions, AllocError>
    requires { IsRising ends.now }
    ensures { IfOk result (λ gone. gone ≡ ends.now) }
{
    let mut gone = Deletions::new(alloc);
    for end in ends {
        gone.delete(*end)?;
    }
    Ok(gone)
}

/// How many documents there are, and how many words they have.
#[derive(Clone, Copy)]
pub(crate) struct Tally {
    pub(crate) documents: u64,
    pub(crate) words: u64,
}

/// What is counted of the live documents of levels.
pub(crate) fn tally_levels(levels: &[OpenLevel], gone: &Deletions) -> Tally
    requires { cells_in (table_rows levels.now) < 2 ^ 64 }
    ensures { IsTally gone.now (table_rows levels.now) result }
{
    let mut tally = Tally {
        documents: 0,
        words: 0,
    };
    for level in levels {
        tally = tally_rows(tally, level.documents(), gone);
    }
    tally
}

// What is counted with the live documents of these rows.
fn tally_rows(start: Tally, rows: &[DocRow], gone: &Deletions) -> Tally
    requires stand { AreDocuments rows.now }
    requires documents { start.documents + cells_in rows.now < 2 ^ 64 }
    requires words { start.words + cells_in rows.now < 2 ^ 64 }
    ensures tally { (before : List DocRow) → IsTally gone.now before start
        → IsTally gone.now (before ++ rows.now) result }
    ensures documents { result.documents ≤ start.documents + cells_in rows.now }
    ensures words { result.words ≤ start.words + cells_in rows.now }
{
    let mut tally = start;
    for row in rows {
        tally = with_row(tally, row, gone);
    }
    tally
}

// What is counted with the document of this row, if it is live.
fn with_row(tally: Tally, row: &DocRow, gone: &Deletions) -> Tally
    requires some { 3 ≤ row.now.cells }
    requires below { end_in row.now < TOP }
    requires documents { tally.documents + row.now.cells < 2 ^ 64 }
    requires words { tally.words + row.now.cells < 2 ^ 64 }
    ensures tally { (before : List DocRow) → IsTally gone.now before tally
        → IsTally gone.now (before ++ row.now ∷ []) result }
    ensures documents { result.documents ≤ tally.documents + row.now.cells }
    ensures words { result.words ≤ tally.words + row.now.cells }
{
    if gone.holds(end_of(row)) {
        return tally;
    }
    Tally {
        documents: tally.documents + 1,
        words: tally.words + (row.cells - MARKS),
    }
}
