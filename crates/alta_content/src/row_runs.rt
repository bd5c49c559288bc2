// Rows to which rows are added, in runs of which the full ones are shared.
// So a search copies no more than the last run. A run that is shared costs some 30 instructions, and a row that is copied shares its name.
// A flush copies all rows, since snapshots may share them.
ghost use Rattle.std.specs.Prelude.{◌≡◌, ◌<◌, ◌∷◌, ◌++◌, [], map, length, slice_get, Some, IfOk, OnOk};
ghost use Rattle.alta_codec.specs.Rising.{IsRising};
ghost use Rattle.alta_codec.specs.Lists.{Pushes};
ghost use Rattle.alta_content.specs.Rows.{end_of, ends_of};
ghost use Rattle.alta_content.specs.All.{shared_rows, rows_of_levels};

use crate::all::row_in;
use crate::{DocRow, LevelRows, ends_of, runs_of};
use alta_codec::Len;
use std::alloc::{AllocError, Global};
use std::convert::AsSlice;
use std::default::MadeWith;
use std::marker::Model;
use std::mem;
use std::rc::Rc;

/// How many rows a full run has.
const RUN: usize = 64;

/// Rows to which rows are added, in rising order of their ends. They stand in runs of 64: the full ones are shared with whoever else keeps
/// them, and the last is copied for each reader. Contracts see the list of all rows.
#[derive(Drop)]
pub struct RowRuns {
    full: Vec<Rc<LevelRows>>,
    last: Vec<DocRow>,
    alloc: Global,
}

impl Model for RowRuns {
    ghost use Rattle.std.specs.Prelude.{List, map, ◌++◌};
    ghost use Rattle.alta_codec.specs.Rising.{IsRising};
    ghost use Rattle.alta_content.specs.Rows.{ends_of};
    ghost use Rattle.alta_content.specs.All.{shared_rows, rows_of_levels};
    ghost use Rattle.alta_content.specs.declared.document.DocRow.{DocRow};

    ghost Value = { List DocRow };

    ghost view = { λ r. rows_of_levels (map shared_rows r.full.items) ++ r.last.items };

    ghost invariant = { λ r. IsRising (ends_of (rows_of_levels (map shared_rows r.full.items) ++ r.last.items)) };
}

impl MadeWith<Global> for RowRuns {
    ghost is_made_with = { λ rows. rows ≡ [] };

    /// No rows. What they take in memory comes from the allocator.
    fn made_with(alloc: Global) -> RowRuns {
        RowRuns {
            full: Vec::new(alloc),
            last: Vec::new(alloc),
            alloc,
        }
    }
}

impl Len for RowRuns {
    ghost len_of = { length };

    fn len(&self) -> usize {
        let mut count = self.last.len();
        for run in self.full.as_slice() {
            count += run.len();
        }
        count
    }
}

impl RowRuns {
    /// Adds a row at the end. Where memory is wanting, the rows stay as they were.
    pub fn push(&mut self, row: DocRow) -> Result<(), AllocError>
        requires { IsRising (ends_of (self.old ++ row ∷ [])) }
        ensures { Pushes row self.old self.new result }
    {
        if self.last.len() >= RUN {
            self.close_run()?;
        }
        self.last.push(row)?;
        Ok(())
    }

    /// Makes the last run a shared one, without a copy of its rows.
    fn close_run(&mut self) -> Result<(), AllocError>
        ensures { self.new ≡ self.old }
    {
        self.full.reserve(1)?;
        let ends = ends_of(self.alloc, &self.last)?;
        let runs = runs_of(self.alloc, &self.last, &ends)?;
        let rows = mem::replace(&mut self.last, Vec::new(self.alloc));
        match Rc::new(self.alloc, LevelRows::with_runs(rows, ends, runs)) {
            Ok(run) => {
                let Ok(()) = self.full.push(run) else {
                    unreachable!()
                };
                Ok(())
            }
            Err(refused) => {
                self.last = refused.value.into_rows();
                Err(AllocError)
            }
        }
    }

    /// The row at an index.
    pub fn row(&self, index: usize) -> &DocRow
        requires { index < length self.now }
        ensures { slice_get self.now index ≡ Some result.now }
    {
        match row_in(&self.full, index) {
            Ok(row) => row,
            Err(left) => &self.last[left],
        }
    }

    /// The runs in order: the full ones shared, and behind them the last one, of at most 64 rows, copied. Fails for want of memory alone.
    pub fn runs(&self) -> Result<Vec<Rc<LevelRows>>, AllocError>
        ensures { IfOk result (λ runs. rows_of_levels (map shared_rows runs.items) ≡ self.now) }
    {
        let mut runs = share_runs(self.alloc, &self.full)?;
        runs.push(copy_run(self.alloc, &self.last)?)?;
        Ok(runs)
    }

    /// Equal rows, in memory of their own. Fails for want of memory alone.
    pub fn copy(&self) -> Result<Vec<DocRow>, AllocError>
        ensures { IfOk result (λ copies. copies.items ≡ self.now) }
    {
        let mut copies = Vec::with_capacity(self.alloc, self.len())?;
        for run in self.full.as_slice() {
            copy_rows(&mut copies, run.as_slice())?;
        }
        copy_rows(&mut copies, &self.last)?;
        Ok(copies)
    }
}

/// The same runs, shared, with room for one more.
fn share_runs(alloc: Global, runs: &[Rc<LevelRows>]) -> Result<Vec<Rc<LevelRows>>, AllocError>
    ensures { IfOk result (λ shared. map shared_rows shared.items ≡ map shared_rows runs.now) }
{
    let mut shared = Vec::with_capacity(alloc, runs.len() + 1)?;
    for run in runs {
        shared.push(run.clone()?)?;
    }
    Ok(shared)
}

/// Equal rows as a run, in memory of their own.
fn copy_run(alloc: Global, rows: &[DocRow]) -> Result<Rc<LevelRows>, AllocError>
    requires { IsRising (map end_of rows.now) }
    ensures { IfOk result (λ run. run.value ≡ rows.now) }
{
    let mut copies = Vec::with_capacity(alloc, rows.len())?;
    copy_rows(&mut copies, rows)?;
    let run = LevelRows::new(alloc, copies)?;
    match Rc::new(alloc, run) {
        Ok(run) => Ok(run),
        Err(_) => Err(AllocError),
    }
}

/// Adds equal rows at the end, whose names share the bytes of these.
fn copy_rows(copies: &mut Vec<DocRow>, rows: &[DocRow]) -> Result<(), AllocError>
    ensures { OnOk result (copies.new.items ≡ copies.old.items ++ rows.now) }
{
    for row in rows {
        copies.push(row.copy()?)?;
    }
    Ok(())
}
