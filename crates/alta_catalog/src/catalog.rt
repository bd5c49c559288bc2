// What is known of all live documents.
ghost use Rattle.std.specs.List.{sum_by};
ghost use Rattle.std.specs.Prelude.{◌≡◌, ◌≢◌, ◌↔◌, ◌++◌, ◌∷◌, [], ◌+◌, ◌-◌, ◌*◌, ◌<◌, ◌≤◌, ℕ, List, Some, true, false, length, map, IsTrue, IfOk, IfSome, IfNone, OnOk};
ghost use Rattle.alta_codec.specs.Name.{IsName};
ghost use Rattle.alta_codec.specs.Rising.{IsRising};
ghost use Rattle.alta_content.specs.declared.document.DocRow.{DocRow};
ghost use Rattle.alta_content.specs.Rows.{AreDocuments, ends_among, RowsRise};
ghost use Rattle.alta_content.specs.Ends.{ShowsRising};
ghost use Rattle.alta_meaning.specs.Opened.{have_ends, live_in, table_rows};
ghost use Rattle.alta_meaning.specs.Ordered.{AreBelow, AreOrdered, RowsPrecede};
ghost use Rattle.alta_machine.specs.Changes.{has_name, has_number, number_of, with_added, with_deleted, without, words_in};
ghost use Rattle.alta_journal.specs.declared.entry.Entry.{Entry};
ghost use Rattle.alta_journal.specs.declared.entry.Entry.TheVariants.{Add as AddEntry, Delete as DeleteEntry};
ghost use Rattle.alta_journal.specs.declared.places.TheConstants.{TEXTS_BYTES};
ghost use Rattle.alta_memlevel.specs.Added.{Added, HasContent};
ghost use Rattle.alta_machine.specs.declared.document.State.{State};
ghost use Rattle.alta_root.specs.Root.{IsSound};
ghost use Rattle.alta_catalog.specs.Knowing.{AreParts, Follows, Knows, KnowsBy, gone_of, levels_of, location_of, memory_of, newest_of, next_of};
ghost use Rattle.alta_meaning.specs.Names.{AreNames};
ghost use Rattle.alta_content.specs.All.{rows_of_levels, shared_rows};
ghost use Rattle.alta_catalog.specs.Names.{AreNamesOf};
ghost use Rattle.alta_catalog.specs.Replacing.{HasRoom, IsEmptied, IsLeft, IsPrepared, Leaves, MayReplace, deleted_of, level_in, rows_between};
ghost use Rattle.alta_catalog.specs.Rows.{AreRowsOf, MayStart, documents_left};
ghost use Rattle.alta_root.specs.declared.root.Root.{Root};

use crate::Deletions;
use crate::finding::{end_of, find};
use crate::lists::Names;
use crate::names::names_in;
use crate::replacing::{PreparedLevels, ends_to_come, put_between};
use crate::sharing::{share_rows, with_runs};
use crate::starting::{ends_of, tally_levels};
use alta_codec::{DocNumber, Loc};
use alta_content::{AllRows, DocName, DocRow, LevelRows};
use alta_machine::{MetaFault, cells};
use alta_memlevel::MemLevel;
use alta_names::NameTable;
use alta_root::{LAST_NEXT, Root};
use alta_table::OpenLevel;
use std::alloc::{AllocError, Global};
use std::mem;
use std::rc::Rc;

// The cells of a document that are no words: its name's, its title's end, and its own end.
pub(crate) const MARKS: u64 = 3;

/// What is known of all live documents of an index: those of its levels, by number, name and count of cells, and the newest ones in
/// memory, with all their words.
#[derive(Drop)]
pub struct Catalog {
    alloc: Global,
    // The number of the next document, and the location of its first cell.
    next: u64,
    location: u64,
    // The number of the first document in memory. The numbers of the others follow on one another.
    first: u64,
    // How many live documents there are, and how many words they have.
    count: u64,
    words: u64,
    names: NameTable,
    levels: Vec<OpenLevel>,
    memory: MemLevel,
    gone: Deletions,
}

impl Catalog {
    ghost use Rattle.alta_catalog.specs.Knowing.{AreParts, Knows, KnowsBy, gone_of, levels_of, memory_of};

    /// What opening found of the levels of a root: their tables, the oldest first, the ends of their deleted documents, and the names
    /// of the live ones. Each row is looked at once, and its end looked up among the deleted ones. Fails for want of memory alone.
    pub fn new(
        alloc: Global,
        root: &Root,
        levels: Vec<OpenLevel>,
        deleted: &[Loc],
        names: NameTable,
    ) -> Result<Catalog, AllocError>
        requires sound { (size : ℕ) × IsSound size root.now }
        requires rows { AreDocuments (table_rows levels.items) }
        requires below { AreBelow root.now (table_rows levels.items) }
        requires rising { IsRising deleted.now }
        requires ends { have_ends levels.items deleted.now ≡ true }
        requires ordered { AreOrdered (live_in deleted.now (table_rows levels.items)) }
        requires names { AreNames names (live_in deleted.now (table_rows levels.items)) }
        ensures knows { (s : State) → (may : MayStart s root.now deleted.now levels.items)
            → IfOk result (λ c. KnowsBy c may.olds s) }
        ensures levels { IfOk result (λ c. levels_of c ≡ levels.items) }
        ensures gone { IfOk result (λ c. gone_of c ≡ deleted.now) }
        ensures follows { IfOk result (λ c. Follows c root.now []) }
    {
        let gone = ends_of(alloc, deleted)?;
        let tally = tally_levels(&levels, &gone);
        Ok(Catalog {
            alloc,
            next: root.next_number,
            location: root.next_location,
            first: root.next_number,
            count: tally.documents,
            words: tally.words,
            names,
            levels,
            memory: MemLevel::new(alloc),
            gone,
        })
    }

    /// The tables of the levels, the oldest first.
    pub fn levels(&self) -> &[OpenLevel]
        ensures { result.now ≡ levels_of self.now }
    {
        &self.levels
    }

    /// The ends of all documents that are gone, of the levels and of those in memory, rising.
    pub fn gone(&self) -> &[Loc]
        ensures { ShowsRising (gone_of self.now) result.now }
    {
        self.gone.ends()
    }

    /// The newest documents as a level in memory, and the ends of all documents that are gone, rising.
    pub fn newest(&self) -> (&MemLevel, &[Loc])
        ensures memory { result.0.now ≡ memory_of self.now }
        ensures gone { result.1.now ≡ gone_of self.now }
        ensures rise { (s : State) → Knows self.now s
            → RowsPrecede (table_rows (levels_of self.now) ++ (memory_of self.now).content.documents) }
        ensures parts { (s : State) → (knows : Knows self.now s)
            → AreParts (levels_of self.now) result.1.now result.0.now knows.olds s }
    {
        (&self.memory, self.gone.ends())
    }

    /// The rows of the levels, the oldest first, and behind them those in memory, shared, but for the last 64 of the latter at most,
    /// which are copied. Fails for want of memory alone.
    pub fn rows(&self) -> Result<AllRows, AllocError>
        requires { (s : State) × Knows self.now s }
        ensures { IfOk result (λ rows. rows ≡ table_rows (levels_of self.now)
            ++ (memory_of self.now).content.documents) }
    {
        AllRows::new(self.alloc, self.runs()?)
    }

    // The same, as they are shared.
    fn runs(&self) -> Result<Vec<Rc<LevelRows>>, AllocError>
        ensures { IfOk result (λ runs. rows_of_levels (map shared_rows runs.items)
            ≡ table_rows (levels_of self.now) ++ (memory_of self.now).content.documents) }
    {
        let rows = share_rows(self.alloc, &self.levels)?;
        with_runs(rows, self.memory.runs()?)
    }

    /// How many live documents there are, how many words they have in all, and the number that the next document gets. All three
    /// are kept, and no document is looked at.
    pub fn counts(&self) -> (u64, u64, u64)
        ensures { (s : State) → Knows self.now s → result ≡ (length s.documents, words_in s, s.next) }
    {
        (self.count, self.words, self.next)
    }

    /// Whether a number is left for a document more.
    pub fn has_room(&self) -> bool
        ensures { (s : State) → Knows self.now s → IsTrue result ↔ (s.next < 4294967296) }
    {
        self.next < LAST_NEXT
    }

    /// The number of the live document with this name, None where there is none. It is looked up by the name's hash, and the name compared
    /// with that of the row of the number, which is found by halves in each level.
    pub fn number_of(&self, name: &str) -> Option<u64>
        ensures value { (s : State) → Knows self.now s → result ≡ number_of name.now s }
        ensures some { (s : State) → Knows self.now s
            → IfSome result (λ n. (has_name name.now s ≡ true) × (has_number n s ≡ true)
            × (without n s ≡ with_deleted name.now s)) }
        ensures none { (s : State) → Knows self.now s → IfNone result (has_name name.now s ≡ false) }
    {
        let Some(number) = self.names.likely(name) else {
            return self.names.other(name);
        };
        if self.is_named(number, name) {
            return Some(number);
        }
        self.names.other(name)
    }

    // Whether the row with the number of a live document has this name.
    fn is_named(&self, number: u64, name: &str) -> bool
        ensures yes { (s : State) → Knows self.now s → has_number number s ≡ true → result ≡ true
            → number_of name.now s ≡ Some number }
        ensures no { (s : State) → Knows self.now s → has_number number s ≡ true → result ≡ false
            → number_of name.now s ≢ Some number }
    {
        let Some(row) = find(&self.levels, &self.memory, self.first, number) else {
            return false;
        };
        row.name.as_str() == name
    }

    /// The names of the live documents with their numbers, in the order of bytes, each once: one pass over the rows, a copy of each name,
    /// and then a sort of the copies.
    ///
    /// # Errors
    ///
    /// `AllocError` where there was no memory left for the list.
    pub fn names(&self, alloc: Global) -> Result<Names, AllocError>
        ensures { (s : State) → Knows self.now s → IfOk result (AreNamesOf s) }
    {
        names_in(alloc, &self.runs()?, &self.gone)
    }

    /// Adds a document, whose name is free and for which a number is left.
    ///
    /// # Errors
    ///
    /// `Memory` where memory is wanting: the catalog may no longer be used.
    pub fn add(
        &mut self,
        alloc: Global,
        name: &str,
        title: &str,
        body: &str,
    ) -> Result<(), MetaFault>
        requires knows { (s : State) × Knows self.old s }
        requires named { IsName name.now }
        requires short { length title.now + length body.now ≤ TEXTS_BYTES }
        requires free { (s : State) → Knows self.old s → has_name name.now s ≡ false }
        requires left { (s : State) → Knows self.old s → s.next < 4294967296 }
        ensures added { OnOk result ((s : State) → (knows : Knows self.old s)
            → KnowsBy self.new knows.olds (with_added name.now title.now body.now s)) }
        ensures levels { levels_of self.new ≡ levels_of self.old }
        ensures gone { gone_of self.new ≡ gone_of self.old }
        ensures follows { (root : Root) → (entries : List Entry) → Follows self.old root entries
            → OnOk result (Follows self.new root (entries ++ AddEntry name.now title.now body.now ∷ [])) }
    {
        let cells = cells(alloc, name, title, body)?;
        let count = cells.len() as u64;
        let row = DocRow {
            number: self.next,
            first: self.location,
            cells: count,
            name: DocName::of(alloc, name)?,
        };
        self.memory.add(row, &cells)?;
        self.names.note(alloc, name, self.next)?;
        self.next += 1;
        self.location += count;
        self.count += 1;
        self.words += count - MARKS;
        Ok(())
    }

    /// Deletes the document with this number, of a level or in memory, and answers whether there was one. It looks by halves in each
    /// level.
    ///
    /// # Errors
    ///
    /// `AllocError` where memory is wanting: nothing has changed.
    pub fn delete(&mut self, number: u64) -> Result<bool, AllocError>
        requires { (s : State) × Knows self.old s }
        ensures deleted { IfOk result (λ there. there ≡ true → (s : State) → (knows : Knows self.old s)
            → (has_number number s ≡ true) × KnowsBy self.new knows.olds (without number s)) }
        ensures missing { IfOk result (λ there. there ≡ false → (s : State) → Knows self.old s
            → has_number number s ≡ false) }
        ensures unchanged { IfOk result (λ there. there ≡ false → self.new ≡ self.old) }
        ensures still { IfOk result (λ there. (row : DocRow) → ends_among (gone_of self.old) row ≡ true
            → ends_among (gone_of self.new) row ≡ true) }
        ensures levels { levels_of self.new ≡ levels_of self.old }
        ensures follows { (root : Root) → (entries : List Entry) → Follows self.old root entries
            → IfOk result (λ there. there ≡ true → Follows self.new root (entries ++ DeleteEntry number ∷ [])) }
    {
        let Some(row) = find(&self.levels, &self.memory, self.first, number) else {
            return Ok(false);
        };
        let end = end_of(row);
        if self.gone.holds(end) {
            return Ok(false);
        }
        self.gone.delete(end)?;
        self.names.forget(row.name.as_str(), number);
        self.count -= 1;
        self.words -= row.cells - MARKS;
        Ok(true)
    }

    /// The number that the next document gets, and the location of its first cell.
    pub fn bounds(&self) -> (DocNumber, Loc)
        ensures follows { (root : Root) → (entries : List Entry) → Follows self.now root entries
            → (result.0 ≡ root.next_number + length (newest_of root entries))
            × (result.1 ≡ root.next_location + sum_by (λ (a : Added). a.row.cells) (newest_of root entries)) }
        ensures within { (s : State) → Knows self.now s → (1 ≤ result.0) × (result.0 ≤ 4294967296) × (1 ≤ result.1)
            × (result.1 ≤ 1 + (result.0 - 1) * 262146) }
        ensures next { (s : State) → Knows self.now s → result.0 ≡ s.next }
        ensures are { (result.0 ≡ next_of self.now) × (result.1 ≡ location_of self.now) }
    {
        (self.next, self.location)
    }

    /// Takes the newest documents out. Until [`put_levels`](Catalog::put_levels) the catalog knows the documents of levels alone.
    pub fn take_newest(&mut self) -> MemLevel
        ensures memory { result ≡ memory_of self.old }
        ensures emptied { IsEmptied self.old self.new }
    {
        mem::replace(&mut self.memory, MemLevel::new(self.alloc))
    }

    /// Takes the memory for other levels: those of these rows, one in place of the levels before the index and one behind all. The ends
    /// that are gone are looked up among all rows to come. Then it drops the tables of the levels before the index, which so take no
    /// memory beside what is written. Until [`put_levels`](Catalog::put_levels) the catalog knows no state.
    ///
    /// # Errors
    ///
    /// `AllocError` where memory is wanting. The catalog is then as it was.
    pub fn prepare(
        &mut self,
        oldest: &[DocRow],
        stay_from: usize,
        newest: &[DocRow],
    ) -> Result<PreparedLevels, AllocError>
        requires index { stay_from ≤ length (levels_of self.old) }
        requires rows { RowsRise (rows_between oldest.now stay_from (levels_of self.old) newest.now) }
        ensures prepared { IfOk result (IsPrepared self.old oldest.now stay_from newest.now) }
        ensures left { Leaves stay_from self.old self.new result }
    {
        let stay = &self.levels[stay_from..];
        let ends = ends_to_come(self.alloc, self.gone.ends(), oldest, stay, newest)?;
        let prepared = PreparedLevels {
            levels: Vec::with_capacity(self.alloc, self.levels.len() + 2)?,
            deleted: ends_of(self.alloc, &ends)?,
        };
        self.levels.drain(..stay_from);
        Ok(prepared)
    }

    /// Goes on over other levels, which [`prepare`](Catalog::prepare) took the memory for, where the newest documents were taken out: over
    /// those that stay, between two new ones, of which each may be absent. It takes no memory and cannot fail.
    pub fn put_levels(
        &mut self,
        prepared: PreparedLevels,
        oldest: Option<OpenLevel>,
        newest: Option<OpenLevel>,
    )
        requires room { HasRoom self.old prepared }
        ensures knows { (before emptied : Catalog) → (s : State) → (n : ℕ) → (olds : List Added)
            → IsEmptied before emptied → Knows before s → IsLeft n emptied self.old
            → IsPrepared emptied (table_rows (level_in oldest)) n (table_rows (level_in newest)) prepared
            → MayReplace before oldest n newest
            → AreRowsOf (table_rows (levels_of self.new)) olds
            → KnowsBy self.new olds (record { next = s.next; documents = documents_left (deleted_of prepared) olds }) }
        ensures same { (before emptied : Catalog) → (s : State) → (n : ℕ) → IsEmptied before emptied
            → Knows before s → IsLeft n emptied self.old
            → IsPrepared emptied (table_rows (level_in oldest)) n (table_rows (level_in newest)) prepared
            → MayReplace before oldest n newest → Knows self.new s }
        ensures levels { levels_of self.new ≡ level_in oldest ++ (levels_of self.old ++ level_in newest) }
        ensures gone { gone_of self.new ≡ deleted_of prepared }
        ensures follows { (root : Root) → root.next_number ≡ next_of self.old
            → root.next_location ≡ location_of self.old → HasContent [] (memory_of self.old).content
            → Follows self.new root [] }
    {
        let PreparedLevels { levels, deleted } = prepared;
        put_between(&mut self.levels, levels, oldest, newest);
        self.gone = deleted;
        self.first = self.next;
    }
}
