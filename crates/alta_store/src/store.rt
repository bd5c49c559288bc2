// The store, and how it is opened.
ghost use Rattle.std.specs.Prelude.{◌≡◌, ◌⊎◌, ◌+◌, ◌<◌, ◌≤◌, ℕ, true, false, length, Err, None, IfOk, IfErr, OnOk, All};
ghost use Rattle.alta_layout.specs.declared.places.TheConstants.{HALF_BYTES, HEAD_BYTES};
ghost use Rattle.alta_layout.specs.declared.slot.Slot.{Slot};
ghost use Rattle.alta_catalog.specs.Knowing.{Follows, KnowsBy, levels_of as levels_in};
ghost use Rattle.alta_meaning.specs.Names.{AreNames};
ghost use Rattle.alta_catalog.specs.Names.{AreNamesOf};
ghost use Rattle.alta_catalog.specs.Rows.{MayStart};
ghost use Rattle.alta_catalog.specs.declared.fault.CatalogFault.TheVariants.{Memory as NoMemory, Damaged as DamagedEntry};
ghost use Rattle.alta_codec.specs.Faults.{Rose};
ghost use Rattle.alta_codec.specs.Rising.{IsRising};
ghost use Rattle.alta_content.specs.Rows.{AreDocuments};
ghost use Rattle.alta_disk.specs.Disk.{Same, Only, Passes};
ghost use Rattle.alta_meaning.specs.Broken.{IsBrokenAt};
ghost use Rattle.alta_meaning.specs.Entries.{AllowsAll, IsRefusedAt, after_entries, entries_in};
ghost use Rattle.alta_meaning.specs.Opened.{Opened, IsOpened, have_ends, known_at, live_in, table_rows};
ghost use Rattle.alta_meaning.specs.Ordered.{AreBelow, IsOrdered};
ghost use Rattle.alta_machine.specs.Changes.{words_in};
ghost use Rattle.alta_journal.specs.Entry.{MayBeRecorded};
ghost use Rattle.alta_machine.specs.declared.document.State.{State};
ghost use Rattle.alta_opening.specs.Costs.{named_bytes};
ghost use Rattle.alta_root.specs.Root.{IsSound};
ghost use Rattle.alta_root.specs.Slots.{Counts, HasNoRoot};
ghost use Rattle.alta_root.specs.declared.root.Root.{Root};
ghost use Rattle.alta_store.specs.Agreement.{Agrees, KeepsOpened, IsIntact, Keeps, Knows, is_sound};
ghost use Rattle.alta_store.specs.Answers.{IsOutside};
ghost use Rattle.alta_store.specs.Opening.{Opens};
ghost use Rattle.alta_store.specs.Searched.{IsSearched};
ghost use Rattle.alta_store.specs.declared.fault.StoreFault.TheVariants.{Disk as DiskFault, NoRoot, Damaged};

use crate::StoreFault;
use crate::fault::{catalog_fault, load_fault, root_fault};
use crate::guess::Guess;
use alta_catalog::{Catalog, CatalogFault, Names, apply_entries};
use alta_codec::Loc;
use alta_content::AllRows;
use alta_disk::Disk;
use alta_joins::Job;
use alta_journal::{Placed, Ready, Tail, replay};
use alta_layout::Slot;
use alta_memlevel::MemLevel;
use alta_names::NameTable;
use alta_opening::{OpenLevels, open_levels};
use alta_root::{Root, read_roots};
use alta_table::OpenLevel;
use std::alloc::{AllocError, Global};

/// What is known of the documents of an index, the root that counts, where its journal goes on, and a join of its two oldest levels.
#[derive(Drop)]
pub struct Store {
    pub(crate) alloc: Global,
    pub(crate) slot: Slot,
    pub(crate) root: Root,
    // The ends that the root's deletion list has.
    pub(crate) listed: Vec<Loc>,
    pub(crate) tail: Tail,
    pub(crate) catalog: Catalog,
    // A join of the two oldest levels that goes on.
    pub(crate) job: Option<Job>,
    // The record whose body stands behind the closed gate at the tail.
    pub(crate) ahead: Option<Ready>,
    pub(crate) guess: Guess,
    pub(crate) sound: bool,
}

/// What a search looks at: the tables of the levels, the oldest first, the newest documents, the ends of all documents that are gone,
/// rising, and the rows of levels and newest documents.
#[derive(Drop)]
pub struct Sources<'a> {
    pub levels: &'a [OpenLevel],
    pub newest: &'a MemLevel,
    pub gone: &'a [Loc],
    pub rows: AllRows,
}

impl Store {
    /// Whether the store may be used: false after an error of the disk, of memory, for want of room, or of a damaged level.
    pub fn sound(&self) -> bool
        ensures { result ≡ is_sound self.now }
    {
        self.sound
    }

    /// The slot of the root that counts. Each switch of the root takes the other one: while the slot is the same, the levels are.
    pub fn slot(&self) -> Slot
        ensures { result ≡ self.now.slot }
    {
        self.slot
    }

    /// What a search looks at. It takes memory for the list of the rows alone, which are shared, but for the last 64 of the newest
    /// documents at most. Fails for want of memory alone.
    pub fn sources(&self) -> Result<Sources<'_>, AllocError>
        requires { IsIntact self.now }
        ensures { IfOk result (λ found. IsSearched self.now found.levels.now found.newest.now
            found.gone.now found.rows) }
    {
        let (newest, gone) = self.catalog.newest();
        Ok(Sources {
            levels: self.catalog.levels(),
            newest,
            gone,
            rows: self.catalog.rows()?,
        })
    }

    /// How many live documents there are, how many words they have in all, and the number that the next document gets. All three
    /// are kept, and no document is looked at.
    pub fn counts(&self) -> (u64, u64, u64)
        ensures { (s : State) → Knows self.now s → result ≡ (length s.documents, words_in s, s.next) }
    {
        self.catalog.counts()
    }

    /// The names of the live documents with their numbers, in the order of bytes, each once: one pass over the rows, a copy of each name,
    /// and then a sort of the copies.
    ///
    /// # Errors
    ///
    /// `AllocError` where there was no memory left for the list.
    pub fn names(&self, alloc: Global) -> Result<Names, AllocError>
        ensures { (s : State) → Knows self.now s → IfOk result (AreNamesOf s) }
    {
        self.catalog.names(alloc)
    }

    // The store may no longer be used.
    pub(crate) fn failed(&mut self, fault: StoreFault) -> StoreFault
        ensures fault { result ≡ fault }
        ensures unsound { is_sound self.new ≡ false }
    {
        self.sound = false;
        fault
    }

    /// Opens the index of a disk: one sync, then both slots; then what the root that counts names, in the order of [`open_levels`]: its
    /// deletion list, its levels, the one against the other; then the journal's records of the half that the root uses, by themselves,
    /// then their entries against the documents before them. No stream or summary is read. The store then goes on with what the content
    /// is opened as, nothing is pending, and no join of levels goes on.
    ///
    /// # Errors
    ///
    /// `NoRoot` exactly where the content has no index, and `Damaged` exactly where it has one that breaks a rule of the
    /// format, with the place of the first in that order. Both yield to `Memory`, and to `Disk` where a call of the disk failed. After each error but `Disk` the sync was done: nothing is
    /// pending, and the content is the only image. After `Disk` each image is one of those before.
    pub fn open<D: Disk>(alloc: Global, disk: &mut D) -> Result<Store, StoreFault>
        ensures agrees { IfOk result (λ store. Agrees D.tells (D.state disk.new) store) }
        ensures sound { IfOk result (λ store. is_sound store ≡ true) }
        ensures job { IfOk result (λ store. store.job ≡ None) }
        ensures opens { Opens D.tells (D.state disk.old) (D.state disk.new) result }
        ensures durable { OnOk result (Only (D.state disk.new).content (D.state disk.new).images) }
        ensures settled { IfErr result (λ e. (e ≡ DiskFault)
            ⊎ Only (D.state disk.new).content (D.state disk.new).images) }
        ensures keeps { (opened : Opened) → D.tells → IsOpened opened (D.state disk.old).content
            → IfOk result (λ store. Keeps store opened) }
    {
        let Ok(()) = disk.sync() else {
            return Err(StoreFault::Disk);
        };
        load(alloc, disk)
    }
}

// Reads the store that a disk holds.
fn load<D: Disk>(alloc: Global, disk: &mut D) -> Result<Store, StoreFault>
    ensures loaded { IfOk result (λ store. D.tells → KeepsOpened store (D.state disk.old).content) }
    ensures intact { IfOk result IsIntact }
    ensures sound { IfOk result (λ store. is_sound store ≡ true) }
    ensures job { IfOk result (λ store. store.job ≡ None) }
    ensures ahead { IfOk result (λ store. store.ahead ≡ None) }
    ensures limit { OnOk result (HEAD_BYTES ≤ (D.state disk.old).limit) }
    ensures no_root { D.tells → result ≡ Err NoRoot → HasNoRoot (D.state disk.old).content }
    ensures damaged { D.tells → (place : ℕ) → result ≡ Err (Damaged place)
        → IsBrokenAt (D.state disk.old).content place }
    ensures only { IfErr result (λ e. IsOutside e ⊎ ((e ≡ NoRoot) ⊎ ((place : ℕ) × (e ≡ Damaged place)))) }
    ensures content { D.tells → (D.state disk.new).content ≡ (D.state disk.old).content }
    ensures images { Passes Same (D.state disk.old) (D.state disk.new) }
    ensures cause { result ≡ Err DiskFault → Rose (D.state disk.old).faults (D.state disk.new).faults }
    ensures faults { (D.state disk.old).faults ≤ (D.state disk.new).faults }
    ensures read { D.tells → (slot : Slot) → (root : Root) → Counts slot root (D.state disk.old).content
        → (D.state disk.new).taken ≤ (D.state disk.old).taken
        + (592 + named_bytes root (D.state disk.old).content + HALF_BYTES) }
    ensures same_limit { (D.state disk.new).limit ≡ (D.state disk.old).limit }
{
    let roots = match read_roots(disk) {
        Ok(roots) => roots,
        Err(fault) => return Err(root_fault(fault)),
    };
    let opened = match open_levels(alloc, disk, &roots.root) {
        Ok(opened) => opened,
        Err(fault) => return Err(load_fault(fault)),
    };
    let OpenLevels {
        deleted: listed,
        levels,
        names,
    } = opened;
    let version = roots.root.version;
    let (found, tail) = match replay(alloc, disk, roots.slot, version) {
        Ok(read) => read,
        Err(fault) => return Err(load_fault(fault)),
    };
    match catalog_of(alloc, &roots.root, levels, &listed, names, &found) {
        Ok(catalog) => Ok(Store {
            alloc,
            slot: roots.slot,
            root: roots.root,
            listed,
            tail,
            catalog,
            job: None,
            ahead: None,
            guess: Guess::none(),
            sound: true,
        }),
        Err(fault) => Err(catalog_fault(fault)),
    }
}

// What is known of a root's levels, and then of the entries of its journal.
fn catalog_of(
    alloc: Global,
    root: &Root,
    levels: Vec<OpenLevel>,
    deleted: &[Loc],
    names: NameTable,
    found: &[Placed],
) -> Result<Catalog, CatalogFault>
    requires sound { (size : ℕ) × IsSound size root.now }
    requires rows { AreDocuments (table_rows levels.items) }
    requires below { AreBelow root.now (table_rows levels.items) }
    requires rising { IsRising deleted.now }
    requires ends { have_ends levels.items deleted.now ≡ true }
    requires ordered { IsOrdered (known_at root.now deleted.now levels.items) }
    requires names { AreNames names (live_in deleted.now (table_rows levels.items)) }
    requires entries { All (λ p. MayBeRecorded root.now.version p.entry) found.now }
    ensures knows { (s : State) → (may : MayStart s root.now deleted.now levels.items)
        → IfOk result (λ catalog. AllowsAll s (entries_in found.now)
        × KnowsBy catalog may.olds (after_entries s (entries_in found.now))) }
    ensures levels { IfOk result (λ catalog. levels_in catalog ≡ levels.items) }
    ensures follows { IfOk result (λ catalog. Follows catalog root.now (entries_in found.now)) }
    ensures damaged { (s : State) → MayStart s root.now deleted.now levels.items
        → All (λ p. p.place < 4294967296) found.now → (place : ℕ) → result ≡ Err (DamagedEntry place)
        → IsRefusedAt s found.now place }
    ensures only { IfErr result (λ e. (e ≡ NoMemory) ⊎ ((place : ℕ) × (e ≡ DamagedEntry place))) }
{
    let Ok(mut catalog) = Catalog::new(alloc, root, levels, deleted, names) else {
        return Err(CatalogFault::Memory);
    };
    match apply_entries(alloc, &mut catalog, found) {
        Ok(()) => Ok(catalog),
        Err(fault) => Err(fault),
    }
}
