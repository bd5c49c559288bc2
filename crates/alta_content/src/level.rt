// The rows of a level.
// Opening makes these rows once, and snapshots share them. A row takes five times the bytes of its end:
// so a look-up of which document a location is in reads the ends. By the runs a list is tested without a look at each location,
// where its first and last one stand in one run (`check_list` of alta_level).
ghost use Rattle.std.specs.Prelude.{◌≡◌, ◌<◌, ◌↔◌, [], map, length, IsTrue, IfOk};
ghost use Rattle.alta_codec.specs.Rising.{IsRising};
ghost use Rattle.alta_codec.specs.declared.location.TheConstants.{TOP};
ghost use Rattle.alta_content.specs.Ends.{ShowsRising};
ghost use Rattle.alta_content.specs.Rows.{AreJoined, end_of};
ghost use Rattle.alta_content.specs.Runs.{AreRunsOf};

use crate::document::DocRow;
use crate::runs::{Runs, runs_of};
use alta_codec::Loc;
use std::alloc::{AllocError, Global};
use std::convert::AsSlice;
use std::marker::Model;
use std::rc::Rc;

/// The rows of the documents of a level, in rising order of their ends. The ends stand beside them in a list of their own, so
/// that a look-up reads eight bytes a row, and so do the runs of documents that stand side by side. Contracts see the list of rows.
#[derive(Drop)]
pub struct LevelRows {
    rows: Vec<DocRow>,
    ends: Vec<Loc>,
    runs: Runs,
}

impl Model for LevelRows {
    ghost use Rattle.std.specs.Prelude.{List, map, ◌≡◌};
    ghost use Rattle.alta_codec.specs.Rising.{IsRising};
    ghost use Rattle.alta_content.specs.Rows.{end_of};
    ghost use Rattle.alta_content.specs.Runs.{AreRunsOf};
    ghost use Rattle.alta_content.specs.declared.document.DocRow.{DocRow};

    ghost Value = { List DocRow };

    ghost view = { λ r. r.rows.items };

    ghost invariant = { λ r. (r.ends.items ≡ map end_of r.rows.items) × IsRising (map end_of r.rows.items)
        × AreRunsOf r.rows.items r.runs.firsts.items r.runs.ends.items };
}

/// The location of a document's last cell.
fn end_of(row: &DocRow) -> Loc
    requires some { 0 < end_of row.now }
    requires below { end_of row.now < TOP }
    ensures { result ≡ end_of row.now }
{
    row.first + row.cells - 1
}

/// The ends of the documents of these rows. It takes eight bytes a row, and fails for want of memory alone.
pub fn ends_of(alloc: Global, rows: &[DocRow]) -> Result<Vec<Loc>, AllocError>
    requires { IsRising (map end_of rows.now) }
    ensures { IfOk result (λ ends. ends.items ≡ map end_of rows.now) }
{
    let mut ends = Vec::with_capacity(alloc, rows.len())?;
    for row in rows {
        ends.push(end_of(row))?;
    }
    Ok(ends)
}

/// Equal rows, whose names share the bytes of these.
fn copies_of(alloc: Global, rows: &[DocRow]) -> Result<Vec<DocRow>, AllocError>
    ensures { IfOk result (λ copies. copies.items ≡ rows.now) }
{
    let mut copies = Vec::with_capacity(alloc, rows.len())?;
    for row in rows {
        copies.push(row.copy()?)?;
    }
    Ok(copies)
}

impl LevelRows {
    /// These rows, without a copy. It takes eight bytes a row and sixteen bytes a run, and fails for want of memory alone.
    pub fn new(alloc: Global, rows: Vec<DocRow>) -> Result<LevelRows, AllocError>
        requires { IsRising (map end_of rows.items) }
        ensures { IfOk result (λ r. r ≡ rows.items) }
    {
        let ends = ends_of(alloc, &rows)?;
        let runs = runs_of(alloc, &rows, &ends)?;
        Ok(LevelRows::with_runs(rows, ends, runs))
    }

    /// These rows, their ends and their runs, without a copy.
    pub fn with_runs(rows: Vec<DocRow>, ends: Vec<Loc>, runs: Runs) -> LevelRows
        requires rising { IsRising (map end_of rows.items) }
        requires ends { ends.items ≡ map end_of rows.items }
        requires runs { AreRunsOf rows.items runs.firsts.items runs.ends.items }
        ensures { result ≡ rows.items }
    {
        LevelRows { rows, ends, runs }
    }

    /// The rows in a vector of their own: the vector that holds them, where nobody else keeps them, and else equal rows. Fails for
    /// want of memory alone.
    pub fn unshare(alloc: Global, shared: Rc<LevelRows>) -> Result<Vec<DocRow>, AllocError>
        ensures { IfOk result (λ rows. rows.items ≡ shared.value) }
    {
        match Rc::try_unwrap(shared) {
            Ok(rows) => Ok(rows.into_rows()),
            Err(kept) => kept.copy_rows(alloc),
        }
    }

    /// Equal rows, whose names share the bytes of these. Fails for want of memory alone.
    pub fn copy_rows(&self, alloc: Global) -> Result<Vec<DocRow>, AllocError>
        ensures { IfOk result (λ copies. copies.items ≡ self.now) }
    {
        copies_of(alloc, &self.rows)
    }

    /// The vector that holds the rows, without a copy.
    pub fn into_rows(self) -> Vec<DocRow>
        ensures { result.items ≡ self }
    {
        self.rows
    }

    /// How many rows there are.
    pub fn len(&self) -> usize
        ensures { result ≡ length self.now }
    {
        self.rows.len()
    }

    /// Whether there is no row.
    pub fn is_empty(&self) -> bool
        ensures { IsTrue result ↔ (self.now ≡ []) }
    {
        self.rows.is_empty()
    }

    /// Whether each document is known to begin right behind the end of the one before.
    pub fn is_joined(&self) -> bool
        ensures { IsTrue result → AreJoined self.now }
    {
        self.runs.ends.len() <= 1
    }

    /// The runs of the documents.
    pub fn runs(&self) -> &Runs
        ensures { AreRunsOf self.now result.now.firsts.items result.now.ends.items }
    {
        &self.runs
    }

    /// The ends of the documents.
    pub fn ends(&self) -> &[Loc]
        ensures { ShowsRising (map end_of self.now) result.now }
    {
        &self.ends
    }
}

impl AsSlice<DocRow> for LevelRows {
    ghost items = { λ rows. rows };

    /// The rows, borrowed.
    fn as_slice(&self) -> &[DocRow] {
        &self.rows
    }
}
