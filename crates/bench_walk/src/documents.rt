// The rows of the documents.
ghost use Rattle.std.specs.Prelude.{◌≡◌, ◌+◌, ◌<◌, ◌≤◌, ◌^◌, map, IfOk};
ghost use Rattle.alta_codec.specs.Rising.{IsRising};
ghost use Rattle.alta_codec.specs.declared.location.TheConstants.{TOP};
ghost use Rattle.alta_content.specs.Rows.{end_of, ends_of};

use alta_codec::{Loc, TOP};
use alta_content::{AllRows, DocName, DocRow, LevelRows};
use std::alloc::{AllocError, Global};
use std::rc::Rc;

/// How many cells a document has, from 1 to 65,535, and its name. A line that is none counts as want of memory.
fn fields(line: &str) -> Result<(u64, &str), AllocError>
    ensures { IfOk result (λ f. (0 < f.0) × (f.0 < 2 ^ 16)) }
{
    let Some((cells, name)) = line.split_once(' ') else {
        return Err(AllocError);
    };
    match cells.parse::<u16>() {
        Ok(0) | Err(_) => Err(AllocError),
        Ok(cells) => Ok((u64::from(cells), name)),
    }
}

/// The row of a document whose cells begin at `first`. Documents past the last location, and names of 256 bytes or more, count as
/// want of memory.
fn row(alloc: Global, number: u64, first: Loc, line: &str) -> Result<DocRow, AllocError>
    ensures first { IfOk result (λ r. r.first ≡ first) }
    ensures some { IfOk result (λ r. 0 < r.cells) }
    ensures within { IfOk result (λ r. first + r.cells ≤ TOP) }
{
    let (cells, name) = fields(line)?;
    if first > TOP - cells || name.len() >= 256 {
        return Err(AllocError);
    }
    Ok(DocRow {
        number,
        first,
        cells,
        name: DocName::of(alloc, name)?,
    })
}

/// The rows of the documents, a line each.
fn rows(alloc: Global, lines: &str) -> Result<Vec<DocRow>, AllocError>
    ensures { IfOk result (λ rows. IsRising (map end_of rows.items)) }
{
    let mut rows = Vec::new(alloc);
    let mut number: u64 = 1;
    let mut first: Loc = 1;
    for line in lines.lines() {
        let row = row(alloc, number, first, line)?;
        number = number.wrapping_add(1);
        first += row.cells;
        rows.push(row)?;
    }
    Ok(rows)
}

/// The rows of the documents, a line each, as those of one level.
pub(crate) fn level_rows(alloc: Global, lines: &str) -> Result<Rc<LevelRows>, AllocError>
    ensures { IfOk result (λ rows. IsRising (ends_of rows.value)) }
{
    let level = LevelRows::new(alloc, rows(alloc, lines)?)?;
    match Rc::new(alloc, level) {
        Ok(level) => Ok(level),
        Err(_) => Err(AllocError),
    }
}

/// The rows of all documents, which are those of this level.
pub(crate) fn all_rows(alloc: Global, level: Rc<LevelRows>) -> Result<AllRows, AllocError>
    requires { IsRising (ends_of level.value) }
    ensures { IfOk result (λ rows. IsRising (ends_of rows)) }
{
    let mut levels = Vec::new(alloc);
    levels.push(level)?;
    AllRows::new(alloc, levels)
}
