// The rows of several levels.
ghost use Rattle.std.specs.Prelude.{◌≡◌, ◌+◌, ◌<◌, map, length, slice_get, Some, IfOk, IfErr};
ghost use Rattle.alta_codec.specs.Rising.{IsRising};
ghost use Rattle.alta_content.specs.Rows.{ends_of};
ghost use Rattle.alta_content.specs.All.{shared_rows, rows_of_levels};

use crate::walk::RowWalk;
use crate::{DocRow, LevelRows};
use std::alloc::{AllocError, Global};
use std::convert::AsSlice;
use std::marker::Model;
use std::rc::Rc;

/// The rows of all levels, that of the oldest level first, each level's rows shared with whoever else keeps them. All ends rise.
/// Contracts see the list of all rows.
#[derive(Drop)]
pub struct AllRows {
    levels: Rc<Vec<Rc<LevelRows>>>,
}

impl Model for AllRows {
    ghost use Rattle.std.specs.Prelude.{List, map};
    ghost use Rattle.alta_codec.specs.Rising.{IsRising};
    ghost use Rattle.alta_content.specs.Rows.{ends_of};
    ghost use Rattle.alta_content.specs.All.{shared_rows, rows_of_levels};
    ghost use Rattle.alta_content.specs.declared.document.DocRow.{DocRow};

    ghost Value = { List DocRow };

    ghost view = { λ r. rows_of_levels (map shared_rows r.levels.value.items) };

    ghost invariant = { λ r. IsRising (ends_of (rows_of_levels (map shared_rows r.levels.value.items))) };
}

impl AllRows {
    /// The rows of these levels, without a copy. Fails for want of memory alone.
    pub fn new(alloc: Global, levels: Vec<Rc<LevelRows>>) -> Result<AllRows, AllocError>
        requires { IsRising (ends_of (rows_of_levels (map shared_rows levels.items))) }
        ensures { IfOk result (λ r. r ≡ rows_of_levels (map shared_rows levels.items)) }
    {
        match Rc::new(alloc, levels) {
            Ok(levels) => Ok(AllRows { levels }),
            Err(_) => Err(AllocError),
        }
    }

    /// The same rows, shared. Fails for want of memory alone.
    pub fn share(&self) -> Result<AllRows, AllocError>
        ensures { IfOk result (λ r. r ≡ self.now) }
    {
        Ok(AllRows {
            levels: self.levels.clone()?,
        })
    }

    /// The row at an index.
    pub fn row(&self, index: usize) -> &DocRow
        requires { index < length self.now }
        ensures { slice_get self.now index ≡ Some result.now }
    {
        match row_in(&self.levels, index) {
            Ok(row) => row,
            Err(_) => unreachable!(),
        }
    }

    /// A walk along the rows, in front of the first.
    pub fn walk(&self) -> RowWalk<'_>
        ensures rows { result.rows ≡ self.now }
        ensures at { result.at ≡ 0 }
        ensures rising { IsRising (ends_of self.now) }
    {
        RowWalk::new(&self.levels)
    }
}

/// The row of these levels at an index, or how many rows behind all of them it stands.
pub(crate) fn row_in(levels: &[Rc<LevelRows>], index: usize) -> Result<&DocRow, usize>
    ensures there { IfOk result (λ row. slice_get (rows_of_levels (map shared_rows levels.now)) index ≡ Some row.now) }
    ensures behind { IfErr result (λ left. length (rows_of_levels (map shared_rows levels.now)) + left ≡ index) }
{
    let mut left = index;
    for level in levels {
        if left < level.len() {
            return Ok(&level.as_slice()[left]);
        }
        left -= level.len();
    }
    Err(left)
}
