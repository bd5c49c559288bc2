// Marks at some rows of a term part, at which a walk may begin.
ghost use Rattle.std.specs.Prelude.{◌≡◌, ◌∷◌, ◌++◌, ◌+◌, ◌*◌, ◌/◌, ◌-◌, ◌<◌, ◌≤◌, ℕ, List, [], drop, length, IfOk, OnOk};
ghost use Rattle.alta_table.specs.Marks.{AreMarks, IsBehind, head_of, Total};
ghost use Rattle.alta_table.specs.Walks.{behind_of};
ghost use Rattle.alta_table.specs.declared.term.TermRow.{TermRow};

use crate::walk::Walk;
use std::alloc::{AllocError, Global};

/// Each so manieth row has a mark, from the first on.
pub const STRIDE: usize = 16;

/// What is needed to begin a walk before a row.
#[derive(Clone, Copy, Drop)]
pub struct Mark {
    /// The place of the row in the term part.
    pub at: usize,
    /// How many bytes the streams and summaries from this row on may have.
    pub left: u64,
    /// Where the term of the row before begins in the text of such terms.
    pub start: usize,
    /// How many bytes that term has.
    pub len: usize,
}

/// The marks, and the terms of the rows before theirs, one behind the other in one text.
#[derive(Drop)]
pub struct Marks {
    pub heads: Vec<u8>,
    pub marks: Vec<Mark>,
}

impl Marks {
    /// No marks, with room for those of so many rows.
    pub fn with_capacity(alloc: Global, rows: usize) -> Result<Marks, AllocError>
        ensures none { IfOk result (λ marks. marks.marks.items ≡ []) }
    {
        let marks = Vec::with_capacity(alloc, rows.div_ceil(STRIDE))?;
        Ok(Marks {
            heads: Vec::new(alloc),
            marks,
        })
    }

    /// The term of the row before that of a mark.
    pub fn head(&self, mark: &Mark) -> &[u8]
        ensures { result.now ≡ head_of self.now.heads.items mark.now }
    {
        let (_before, behind) = self.heads.split_at(mark.start.min(self.heads.len()));
        let (term, _behind) = behind.split_at(mark.len.min(behind.len()));
        term
    }

    // A mark at a place of the term part, where a walk stands.
    fn push(&mut self, at: usize, walk: &Walk<'_>) -> Result<(), AllocError>
        requires { walk.now.len ≤ 129 }
        ensures heads { OnOk result (self.new.heads.items ≡ self.old.heads.items ++ (behind_of walk.now).term) }
        ensures marks { OnOk result (self.new.marks.items ≡ self.old.marks.items
            ++ (record { at = at; left = walk.now.left; start = length self.old.heads.items; len = walk.now.len })
            ∷ []) }
    {
        let start = self.heads.len();
        self.heads.extend_from_slice(walk.term())?;
        self.marks.push(Mark {
            at,
            left: walk.left,
            start,
            len: walk.len,
        })?;
        Ok(())
    }

    /// Marks the row before which a walk along a term part stands, if it is one of those that have a mark. All of these
    /// before it have theirs.
    pub fn note(&mut self, row: u64, bytes: &[u8], walk: &Walk<'_>) -> Result<(), AllocError>
        requires many { length self.old.marks.items ≡ (row + 15) / 16 }
        requires short { walk.now.len ≤ 129 }
        requires inside { length walk.now.rest.now ≤ length bytes.now }
        requires rest { drop (length bytes.now - length walk.now.rest.now) bytes.now ≡ walk.now.rest.now }
        ensures many { OnOk result (length self.new.marks.items ≡ (row + 16) / 16) }
        ensures marks { OnOk result ((total : Total) → (count room : ℕ) → (rows : List TermRow)
            → IsBehind total count room rows row (behind_of walk.now) walk.now.rest.now
            → AreMarks total count room bytes.now rows self.old.heads.items self.old.marks.items
            → AreMarks total count room bytes.now rows self.new.heads.items self.new.marks.items) }
    {
        if row % STRIDE as u64 == 0 {
            self.push(bytes.len() - walk.rest.len(), walk)?;
        }
        Ok(())
    }
}
