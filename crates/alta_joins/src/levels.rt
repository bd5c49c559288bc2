// The contents of several levels.
ghost use Rattle.std.specs.Prelude.{All, IfOk};
ghost use Rattle.std.specs.List.{sum_by};
ghost use Rattle.alta_content.specs.Parts.{MayJoin};
ghost use Rattle.alta_content.specs.Rows.{AreDocuments};
ghost use Rattle.alta_disk.specs.Calls.{Retrieves};
ghost use Rattle.alta_disk.specs.Disk.{DiskState};
ghost use Rattle.alta_meaning.specs.Broken.{IsBrokenAmong};
ghost use Rattle.alta_meaning.specs.Opened.{table_rows};
ghost use Rattle.alta_disk.specs.Answers.{IfDamaged};
ghost use Rattle.alta_joins.specs.Contents.{AreContentsOf, StandsOn, data_size};
ghost use Rattle.alta_joins.specs.Damages.{Tells};

use crate::level::read_level;
use alta_content::Content;
use alta_disk::{Disk, LoadFault};
use alta_table::OpenLevel;
use std::alloc::Global;

/// Reads the contents of levels, one after the other, each as [`read_level`] reads one.
///
/// # Errors
///
/// Those of [`read_level`]: the damage is the first of the first level that has one.
pub fn read_levels<D: Disk>(
    alloc: Global,
    disk: &mut D,
    levels: &[OpenLevel],
) -> Result<Vec<Content>, LoadFault>
    requires { D.tells → All (StandsOn (D.state disk.old).content) levels.now }
    // The contents are those of the segments that stand there, or the damage is the first.
    ensures tells { D.tells → Tells (λ contents. contents.items) (D.state disk.old).content levels.now result }
    // It is one of a stream or a summary.
    ensures broken { D.tells → IfDamaged result (IsBrokenAmong levels.now (D.state disk.old).content) }
    // Whatever the disk tells, what is read keeps the rules of contents, and has these tables.
    ensures kept { IfOk result (λ contents. AreContentsOf levels.now contents.items) }
    ensures joined { AreDocuments (table_rows levels.now) → IfOk result (λ contents. MayJoin contents.items) }
    ensures retrieves { Retrieves D.tells (sum_by data_size levels.now) (D.state disk.old) (D.state disk.new) result }
{
    let mut contents = Vec::with_capacity(alloc, levels.len())?;
    for level in levels {
        match read_level(alloc, disk, level) {
            Err(fault) => return Err(fault),
            Ok(content) => {
                let Ok(()) = contents.push(content) else {
                    return Err(LoadFault::Memory);
                };
            }
        }
    }
    Ok(contents)
}
