// The lists of tests.
ghost use Rattle.std.specs.Prelude.{◌≡◌, map, All, Err, IfOk};
ghost use Rattle.alta_disk.specs.Disk.{DiskState};
ghost use Rattle.alta_meaning.specs.Ordered.{RowsPrecede};
ghost use Rattle.alta_loading.specs.Lists.{LiesWithin};
ghost use Rattle.alta_loading.specs.Loads.{ReadsLists};
ghost use Rattle.alta_loading.specs.Met.{keys_met, lists_met, loads_of_tests};
ghost use Rattle.alta_loading.specs.Snapshots.{all_rows};
ghost use Rattle.alta_loading.specs.Kept.{AreKept};
ghost use Rattle.alta_search.specs.Lists.{IsCut, test_in, test_keys, test_lists};
ghost use Rattle.alta_search.specs.Newest.{HasAdded};

use crate::kept::KeptLists;
use crate::meeting::terms_met;
use crate::terms::load_terms;
use alta_disk::{Disk, LoadFault};
use alta_machine::Test;
use alta_memlevel::MemLevel;
use alta_search::TestLists;
use alta_table::OpenLevel;
use std::alloc::Global;

/// Loads the lists of each of these tests, one test after the other: those of each term that meets the test, in collating order of the
/// terms, as [`crate::load_terms`] loads them.
///
/// # Errors
///
/// Those of [`crate::load_terms`]: the damage is the first fault of the first list that has one, in the order of loading. `Memory` also
/// where there was no memory for the terms.
pub fn load_tests<D: Disk>(
    alloc: Global,
    disk: &mut D,
    levels: &[OpenLevel],
    kept: &mut KeptLists,
    newest: &MemLevel,
    order: Vec<Test>,
) -> Result<Vec<TestLists>, LoadFault>
    requires within { D.tells → All (λ level. LiesWithin level (D.state disk.old).content) levels.now }
    requires known { AreKept D.tells (D.state disk.old).content levels.now kept.old }
    requires newest { HasAdded newest.now }
    requires rise { RowsPrecede (all_rows levels.now newest.now.content) }
    ensures tests { IfOk result (λ tests. map test_in tests.items ≡ order.items) }
    ensures keys { IfOk result (λ tests. map test_keys tests.items
        ≡ map (keys_met levels.now newest.now.content) order.items) }
    ensures lists { D.tells → IfOk result (λ tests. map test_lists tests.items
        ≡ map (lists_met levels.now newest.now.content (D.state disk.old).content) order.items) }
    // Whatever the disk tells, the lists of a term rise one behind the other, and none is empty.
    ensures cut { IfOk result (λ tests. All IsCut (map test_lists tests.items)) }
    ensures known { AreKept D.tells (D.state disk.old).content levels.now kept.new }
    ensures loads { ReadsLists D.tells (loads_of_tests levels.now newest.now.content order.items) (D.state disk.old)
        (D.state disk.new) result }
{
    let mut tests = Vec::with_capacity(alloc, order.len())?;
    for test in order {
        let met = terms_met(alloc, levels, newest, &test)?;
        match load_terms(alloc, disk, levels, kept, newest, met) {
            Ok(terms) => tests.push(TestLists { test, terms })?,
            Err(fault) => return Err(fault),
        }
    }
    Ok(tests)
}
