// The dump of a store's documents.
ghost use Rattle.std.specs.Prelude.{◌≡◌, ◌<◌, IfOk, IfErr};
ghost use Rattle.alta_disk.specs.Disk.{DiskState};
ghost use Rattle.alta_machine.specs.Dumps.{dump_of};
ghost use Rattle.alta_dump.specs.Shown.{dump_tests};
ghost use Rattle.alta_meaning.specs.Standing.{StandsFor};
ghost use Rattle.alta_machine.specs.declared.document.State.{State};
ghost use Rattle.alta_search.specs.Shown.{ShowsDocuments};
ghost use Rattle.alta_replies.specs.Loading.{MayLoad, Queries, order_loads};
ghost use Rattle.alta_machine.specs.Machine.{IsRefusal};

use crate::searching::load;
use alta_codec::{Steps, Text};
use alta_disk::Disk;
use alta_dump::dump_order;
use alta_loading::KeptLists;
use alta_search::Snapshot;
use alta_store::{Store, StoreFault};
use std::alloc::{AllocError, Global};
use std::marker::Brand;
use std::sync::ledger::{Blank, Ledger};

/// The reply to a dump: for each live document the line that adds its folded words again, or that it is skipped; and then how many
/// lines there are. What it loads of the disk are the lists of all ends and of all folded words, and its faults are those of loading
/// them.
pub fn dump<D: Disk>(
    alloc: Global,
    disk: &mut D,
    store: &Store,
    kept: &mut KeptLists,
) -> Result<Text, StoreFault>
    requires { MayLoad D.tells (D.state disk.old) store.now kept.old }
    ensures reply { (s : State) → D.tells → StandsFor s (D.state disk.old).content
        → IfOk result (λ reply. reply ≡ dump_of s) }
    ensures queries { Queries D.tells D.state disk.old disk.new store.now kept.old kept.new
        (order_loads store.now dump_tests) ⊥ result }
{
    let Ok(order) = dump_order(alloc) else {
        return Err(StoreFault::Memory);
    };
    match load(alloc, disk, store, kept, order) {
        Ok(snapshot) => dumped(alloc, &snapshot),
        Err(fault) => Err(fault),
    }
}

// The dump of what a snapshot shows. It fails for want of memory alone.
fn dumped(alloc: Global, snapshot: &Snapshot) -> Result<Text, StoreFault>
    requires { snapshot.now.tests ≡ dump_tests }
    ensures text { IfOk result (λ text. (s : State) → ShowsDocuments snapshot.now s.documents → text ≡ dump_of s) }
    ensures other { IfOk result (λ text. ¬ (IsRefusal text)) }
    ensures memory { IfErr result (λ e. e ≡ StoreFault.Memory) }
{
    match all_dumped::<Brand>(alloc, snapshot, Blank::new(1)) {
        Ok(text) => Ok(text),
        Err(_) => Err(StoreFault::Memory),
    }
}

// The same. Nobody reads how many steps it took.
fn all_dumped<L: Ledger>(
    alloc: Global,
    snapshot: &Snapshot,
    blank: Blank,
) -> Result<Text, AllocError>
    requires tests { snapshot.now.tests ≡ dump_tests }
    requires name { blank.name ≡ L.name }
    requires parts { blank.parts ≡ L.parts }
    requires shared { 0 < L.parts }
    ensures text { IfOk result (λ text. (s : State) → ShowsDocuments snapshot.now s.documents → text ≡ dump_of s) }
    ensures other { IfOk result (λ text. ¬ (IsRefusal text)) }
{
    let mut steps = Steps::<L>::new(blank);
    let text = alta_dump::dump(alloc, snapshot, &mut steps)?;
    Ok(text)
}
