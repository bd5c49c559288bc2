// The level in memory: the documents that were added, and the locations of their terms.
// A drain sorts a copy of the deleted ends that it is given, so these may stand in any order, and may be ends of no document of it.
// It takes all memory before the level changes.
ghost use Rattle.std.specs.Prelude.{◌≡◌, ℕ, ◌<◌, ◌≤◌, ◌∷◌, ◌++◌, [], List, length, map, slice_get, Some, false, nat_eq, IsTrue, IfOk, OnOk, OnErr};
ghost use Rattle.std.specs.List.{All, filter, starts_with};
ghost use Rattle.std.specs.List.Sorted.{IsStrictlySortedBy};
ghost use Rattle.std.specs.Ordering.{nat_cmp};
ghost use Rattle.std.specs.Cmp.Lexicographic.{slice_cmp};
ghost use Rattle.alta_codec.specs.Rising.{IsRising};
ghost use Rattle.alta_codec.specs.declared.location.TheConstants.{TOP};
ghost use Rattle.alta_content.specs.Lists.{locations_of, terms_of};
ghost use Rattle.alta_content.specs.Rows.{end_of};
ghost use Rattle.alta_memlevel.specs.Added.{Added, HasContent, live_of};
ghost use Rattle.alta_memlevel.specs.Taken.{TakesAll};
ghost use Rattle.alta_content.specs.All.{rows_of_levels, shared_rows};

use crate::copying::copy_lists;
use crate::lists::{Lists, list_of, put_cells};
use crate::terms::terms_from;
use alta_codec::{Bytes, Len, Loc};
use alta_content::{Content, DocRow, DocRows, LevelRows, RowRuns, keep_rows, spans_of};
use alta_machine::Cell;
use std::alloc::{AllocError, Global};
use std::collections::HashMap;
use std::default::MadeWith;
use std::marker::Model;
use std::rc::Rc;

/// The newest documents as an inverted index in memory. Contracts see the content of the documents that were added,
/// and whether the level is sound.
#[derive(Drop)]
pub struct MemLevel {
    rows: RowRuns,
    lists: Lists,
    whole: bool,
    alloc: Global,
}

impl Model for MemLevel {
    ghost use Rattle.std.specs.Prelude.{IsTrue};
    ghost use Rattle.alta_memlevel.specs.Added.{LevelView};
    ghost use Rattle.alta_memlevel.specs.Lists.{IsIndex, term_lists};
    ghost use Rattle.alta_content.specs.Rows.{RowsRise};

    ghost Value = { LevelView };

    ghost view = { λ m. record {
      sound = m.whole;
      content = record { documents = m.rows; lists = term_lists m.lists.entries };
    } };

    ghost invariant = { λ m. IsTrue m.whole → IsIndex m.lists.entries × RowsRise m.rows };
}

impl MemLevel {
    /// A level of no documents. What it takes in memory comes from the allocator.
    #[tactic(auto, using(crate::proofs::Contents::content_empty))]
    pub fn new(alloc: Global) -> MemLevel
        ensures sound { IsTrue result.sound }
        ensures empty { HasContent [] result.content }
        ensures documents { result.content.documents ≡ [] }
    {
        MemLevel {
            rows: RowRuns::made_with(alloc),
            lists: HashMap::new(alloc),
            whole: true,
            alloc,
        }
    }

    /// Whether the level can be used: false from an `add` on that wanted memory.
    pub fn sound(&self) -> bool
        ensures { result ≡ self.now.sound }
    {
        self.whole
    }

    /// Adds a document by its row and its cells, which stand one behind the other from the row's first location.
    /// Where memory is wanting the level is no longer sound.
    pub fn add(&mut self, row: DocRow, cells: &[Cell]) -> Result<(), AllocError>
        requires sound { IsTrue self.old.sound }
        requires number { All (λ r. r.number < row.number) self.old.content.documents }
        requires place { All (λ r. end_of r < row.first) self.old.content.documents }
        requires first { 1 ≤ row.first }
        requires some { 1 ≤ row.cells }
        requires counted { row.cells ≡ length cells.now }
        requires below { end_of row < TOP }
        ensures sound { OnOk result (IsTrue self.new.sound) }
        ensures unsound { OnErr result (self.new.sound ≡ false) }
        ensures documents { OnOk result (self.new.content.documents ≡ self.old.content.documents ++ row ∷ []) }
        ensures added { OnOk result ((added : List Added) → HasContent added self.old.content
            → HasContent (added ++ record { row = row; cells = cells.now } ∷ []) self.new.content) }
    {
        self.whole = false;
        put_cells(self.alloc, &mut self.lists, row.first, cells)?;
        self.rows.push(row)?;
        self.whole = true;
        Ok(())
    }

    /// How many documents were added.
    pub fn len(&self) -> usize
        ensures { result ≡ length self.now.content.documents }
    {
        self.rows.len()
    }

    /// The row of a document by its index in the order in which they were added.
    pub fn row(&self, index: usize) -> &DocRow
        requires { index < length self.now.content.documents }
        ensures { slice_get self.now.content.documents index ≡ Some result.now }
    {
        self.rows.row(index)
    }

    /// The rows of the documents that were added, in order, in runs: the full ones shared, and behind them the last one, of at most
    /// 64 rows, copied. Fails for want of memory alone.
    pub fn runs(&self) -> Result<Vec<Rc<LevelRows>>, AllocError>
        ensures { IfOk result (λ runs. rows_of_levels (map shared_rows runs.items) ≡ self.now.content.documents) }
    {
        self.rows.runs()
    }

    /// The locations of a term, rising, without a copy: none where no cell holds it.
    pub fn get(&self, term: &[u8]) -> &[Loc]
        requires { IsTrue self.now.sound }
        ensures value { result.now ≡ locations_of self.now.content.lists term.now }
        ensures rising { (added : List Added) → HasContent added self.now.content → IsRising result.now }
    {
        list_of(&self.lists, term)
    }

    /// The terms that begin so, in collating order. All terms are visited, and these sorted. Where memory is wanting, the level
    /// stays sound.
    #[tactic(auto, using(crate::proofs::Contents::terms_of_term_lists))]
    pub fn prefixed(&self, prefix: &[u8]) -> Result<Vec<Bytes>, AllocError>
        requires { IsTrue self.now.sound }
        ensures terms { IfOk result (λ found. found.items
            ≡ filter (λ t. starts_with nat_eq t prefix.now) (terms_of self.now.content.lists)) }
        ensures rising { IfOk result (λ found. IsStrictlySortedBy (slice_cmp nat_cmp) found.items) }
    {
        let found = terms_from(self.alloc, &self.lists, prefix)?;
        Ok(found)
    }

    /// Takes the content out without the documents whose end is deleted, and leaves a level of no documents. The ends
    /// may stand in any order, and may be ends of no document. A term that no other document has is left out. The terms are
    /// sorted, and rows and lists are copied, before the level lets them go. Where memory is wanting, the level stays as it was.
    #[tactic(auto, using(crate::proofs::Contents::content_empty))]
    pub fn drain_content(&mut self, deleted: &[Loc]) -> Result<Content, AllocError>
        requires { IsTrue self.old.sound }
        ensures sound { IsTrue self.new.sound }
        ensures content { IfOk result (λ content. (added : List Added) → HasContent added self.old.content
            → HasContent (live_of deleted.now added) content) }
        ensures rising { IfOk result (λ content. (added : List Added) → HasContent added self.old.content
            → All (λ l. IsRising l.locations) content.lists) }
        ensures drained { TakesAll self.old self.new result }
    {
        let mut rows = self.rows.copy()?;
        let spans = spans_of(self.alloc, &rows, deleted)?;
        let lists = copy_lists(self.alloc, &self.lists, &spans)?;
        self.lists = HashMap::new(self.alloc);
        self.rows = RowRuns::made_with(self.alloc);
        keep_rows(&mut rows, &spans);
        Ok(Content {
            documents: DocRows::from_vec(rows),
            lists,
        })
    }
}
