// The rows of levels, to be shared with searches.
ghost use Rattle.std.specs.Prelude.{◌≡◌, ◌++◌, map, IfOk};
ghost use Rattle.alta_catalog.specs.Knowing.{documents_of};
ghost use Rattle.alta_content.specs.All.{rows_of_levels, shared_rows};

use alta_content::LevelRows;
use alta_table::OpenLevel;
use std::alloc::{AllocError, Global};
use std::rc::Rc;

/// The rows of levels, shared, with room for more.
pub(crate) fn share_rows(
    alloc: Global,
    levels: &[OpenLevel],
) -> Result<Vec<Rc<LevelRows>>, AllocError>
    ensures { IfOk result (λ rows. map shared_rows rows.items ≡ map documents_of levels.now) }
{
    let mut rows = Vec::with_capacity(alloc, levels.len() + 1)?;
    for level in levels {
        rows.push(level.rows().clone()?)?;
    }
    Ok(rows)
}

/// More runs behind these.
pub(crate) fn with_runs(
    runs: Vec<Rc<LevelRows>>,
    more: Vec<Rc<LevelRows>>,
) -> Result<Vec<Rc<LevelRows>>, AllocError>
    ensures { IfOk result (λ all. rows_of_levels (map shared_rows all.items)
        ≡ rows_of_levels (map shared_rows runs.items) ++ rows_of_levels (map shared_rows more.items)) }
{
    let mut all = runs;
    for run in more {
        all.push(run)?;
    }
    Ok(all)
}
