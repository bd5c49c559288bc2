// A join of contents that goes on in slices.
ghost use Rattle.std.specs.Prelude.{◌≡◌, ◌↔◌, ℕ, ◌<◌, ◌∷◌, [], drop, length, IsTrue, IfOk, OnOk, OnErr};
ghost use Rattle.alta_content.specs.Joining.{joined, joined_in, parts_of, rows_in, terms_in};
ghost use Rattle.alta_content.specs.Parts.{MayJoin};

use crate::fronts::{Room, merge_next, next_of};
use alta_codec::Loc;
use alta_content::{
    Content, DocRow, DocRows, PackedLocations, Span, TermLists, keep_rows, spans_of,
};
use std::alloc::{AllocError, Global};
use std::default::MadeWith;
use std::marker::Model;

/// A join of contents that stand one behind the other, without the documents that were dead when it began. Contracts see what it
/// will come to, and the terms that are left, in collating order.
#[derive(Drop)]
pub struct Job {
    rows: DocRows,
    made: TermLists,
    rests: Vec<TermLists>,
    spans: Vec<Span>,
    room: Room,
}

impl Model for Job {
    ghost use Rattle.std.specs.Prelude.{◌++◌};
    ghost use Rattle.alta_content.specs.Joining.{gathered, terms_among};
    ghost use Rattle.alta_content.specs.Spans.{lists_outside};
    ghost use Rattle.alta_merge.specs.Fronts.{AreSorted};
    ghost use Rattle.alta_merge.specs.Merging.{Merging};

    ghost Value = { Merging };

    ghost view = { λ j. record {
      whole = record { documents = j.rows; lists = j.made ++ lists_outside j.spans.items (gathered j.rests.items) };
      left = terms_among j.rests.items;
    } };

    ghost invariant = { λ j. AreSorted j.spans.items j.rests.items };
}

// The rows of contents in one list, and their lists.
#[derive(Drop)]
struct Parts {
    rows: Vec<DocRow>,
    rests: Vec<TermLists>,
}

// Takes contents apart.
fn take_apart(alloc: Global, contents: Vec<Content>) -> Result<Parts, AllocError>
    ensures rows { IfOk result (λ parts. parts.rows.items ≡ rows_in contents.items) }
    ensures rests { IfOk result (λ parts. parts.rests.items ≡ parts_of contents.items) }
{
    let mut rows = Vec::new(alloc);
    let mut rests = Vec::with_capacity(alloc, contents.len())?;
    for content in contents {
        let mut more = content.documents.into_vec();
        rows.append(&mut more)?;
        rests.push(content.lists)?;
    }
    Ok(Parts { rows, rests })
}

// The room that the rows and the gaps of a join of lists take at most.
fn room_of(rests: &[TermLists]) -> (usize, usize) {
    let mut rows: usize = 0;
    let mut gaps: usize = 0;
    for rest in rests {
        rows = rows.saturating_add(rest.row_room());
        gaps = gaps.saturating_add(rest.room());
    }
    (rows, gaps)
}

impl Job {
    /// Begins the join of two contents, the first before the second, without the documents whose end is deleted. The deleted
    /// ends may stand in any order, and may be ends of no document. It takes a few allocations, whatever the number of terms.
    pub fn new(alloc: Global, a: Content, b: Content, deleted: &[Loc]) -> Result<Job, AllocError>
        requires { MayJoin (a ∷ b ∷ []) }
        ensures whole { IfOk result (λ job. job.whole ≡ joined a b deleted.now) }
        ensures left { IfOk result (λ job. job.left ≡ terms_in (a ∷ b ∷ [])) }
    {
        let contents = vec![in alloc; a, b]?;
        Job::over(alloc, contents, deleted)
    }

    /// Begins the join of contents, each before the next, as `new` does that of two. Each list is copied to those of its term
    /// that are gathered, and from there to the list that is made, however many contents there are, or straight where one content
    /// alone has the term. Each term costs a comparison for each of them.
    pub fn over(alloc: Global, contents: Vec<Content>, deleted: &[Loc]) -> Result<Job, AllocError>
        requires { MayJoin contents.items }
        ensures whole { IfOk result (λ job. job.whole ≡ joined_in contents.items deleted.now) }
        ensures left { IfOk result (λ job. job.left ≡ terms_in contents.items) }
    {
        let parts = take_apart(alloc, contents)?;
        let spans = spans_of(alloc, &parts.rows, deleted)?;
        let mut rows = parts.rows;
        keep_rows(&mut rows, &spans);
        let (row_room, gap_room) = room_of(&parts.rests);
        Ok(Job {
            rows: DocRows::from_vec(rows),
            made: TermLists::with_room(alloc, row_room, gap_room)?,
            rests: parts.rests,
            spans,
            room: Room {
                packed: PackedLocations::made_with(alloc),
                locations: Vec::new(alloc),
            },
        })
    }

    // Merges the next term, and answers whether there was one. Where memory is wanting, nothing changes.
    fn merge_one(&mut self) -> Result<bool, AllocError>
        ensures whole { self.new.whole ≡ self.old.whole }
        ensures left { OnOk result (self.new.left ≡ drop 1 self.old.left) }
        ensures some { IfOk result (λ some. IsTrue some ↔ 0 < length self.old.left) }
        ensures kept { OnErr result (self.new.left ≡ self.old.left) }
        ensures failed { OnErr result (0 < length self.old.left) }
    {
        let Some(next) = next_of(&self.rests) else {
            return Ok(false);
        };
        merge_next(
            &mut self.made,
            &mut self.rests,
            &mut self.room,
            next,
            &self.spans,
        )?;
        Ok(true)
    }

    /// Merges the next `n` terms, or all that are left, and answers whether none is left then. Where memory is wanting, it has
    /// merged the terms before the one that wanted it, and the job goes on from there.
    pub fn step(&mut self, n: u64) -> Result<bool, AllocError>
        ensures whole { self.new.whole ≡ self.old.whole }
        ensures left { OnOk result (self.new.left ≡ drop n self.old.left) }
        ensures done { IfOk result (λ done. IsTrue done ↔ self.new.left ≡ []) }
        ensures wanting { OnErr result ((k : ℕ) × (k < n) × (k < length self.old.left)
            × (self.new.left ≡ drop k self.old.left)) }
    {
        for i in 0..n {
            if !self.merge_one()? {
                return Ok(true);
            }
        }
        Ok(self.done())
    }

    /// Whether no term is left.
    pub fn done(&self) -> bool
        ensures { IsTrue result ↔ self.now.left ≡ [] }
    {
        next_of(&self.rests).is_none()
    }

    /// The content that the job comes to, without a copy: what `step` made. It has neither rows nor terms where no row is left.
    pub fn finish(self) -> Content
        requires { self.left ≡ [] }
        ensures { result ≡ self.whole }
    {
        Content {
            documents: self.rows,
            lists: self.made,
        }
    }
}
