// A walk along the rows of a term part.
// A row says how many bytes its term shares with the one before, so it is read behind that one alone.
ghost use Rattle.std.specs.Prelude.{◌≡◌, ℕ, ◌+◌, ◌≤◌, ◌^◌, ◌++◌, length, take, Ok, IfOk};
ghost use Rattle.alta_format.specs.Gives.{AlwaysGives};
ghost use Rattle.alta_format.specs.Format.{read};
ghost use Rattle.alta_table.specs.Terms.{term_format};
ghost use Rattle.alta_table.specs.Walks.{IsNext, behind_of, row_of, term_of};

use crate::entry::{LONGEST, entry_at};
use alta_format::ReadFault;

/// A place between two rows: the row before it, and what stands behind it. Before the first row the term is empty.
#[derive(Clone, Copy, Drop)]
pub struct Walk<'a> {
    /// The rows that are still to come.
    pub rest: &'a [u8],
    /// How many bytes the streams and summaries of these may have.
    pub left: u64,
    /// The term of the row before, which is the first `len` bytes.
    pub term: [u8; LONGEST],
    pub len: usize,
    /// At how many locations it stands.
    pub count: u64,
    /// How many bytes its stream has.
    pub stream: u64,
    /// How many bytes its summary has.
    pub summary: u64,
}

// Writes the rest of a term behind the front that it shares with the term before.
fn replace(before: &mut [u8; LONGEST], shared: usize, rest: &[u8])
    requires { shared + length rest.now ≤ LONGEST }
    ensures { take (shared + length rest.now) before.new ≡ take shared before.old ++ rest.now }
{
    before[shared..shared + rest.len()].copy_from_slice(rest);
}

impl<'a> Walk<'a> {
    /// A walk before these rows, which stand behind one of this term, with so much room for streams and summaries.
    pub fn new(rest: &'a [u8], before: &[u8], left: u64) -> Walk<'a>
        requires { length before.now ≤ LONGEST }
        ensures behind { behind_of result ≡ record { term = before.now; room = left } }
        ensures rest { result.rest.now ≡ rest.now }
        ensures short { result.len ≤ LONGEST }
    {
        let mut term = [0u8; LONGEST];
        replace(&mut term, 0, before);
        Walk {
            rest,
            left,
            term,
            len: before.len(),
            count: 0,
            stream: 0,
            summary: 0,
        }
    }

    /// Reads the next row, and passes it. Where it breaks a rule, the walk stays before it.
    pub fn step(&mut self) -> Result<(), ReadFault>
        requires { self.old.len ≤ LONGEST }
        ensures gives { AlwaysGives (λ _. (row_of self.new, self.new.rest.now)) result
            (read (term_format (behind_of self.old)) self.old.rest.now) }
        ensures left { IfOk result (λ _. self.new.left + self.new.stream + self.new.summary ≡ self.old.left) }
        ensures short { self.new.len ≤ LONGEST }
    {
        let (entry, behind) = entry_at(&self.term[..self.len], self.left, self.rest)?;
        replace(&mut self.term, entry.shared, entry.rest);
        self.len = entry.shared + entry.rest.len();
        self.left = self.left - entry.stream - entry.summary;
        self.count = entry.count;
        self.stream = entry.stream;
        self.summary = entry.summary;
        self.rest = behind;
        Ok(())
    }

    /// Passes a row that was read before.
    pub fn pass(&mut self)
        requires next { IsNext self.old }
        requires short { self.old.len ≤ LONGEST }
        ensures reads { read (term_format (behind_of self.old)) self.old.rest.now
            ≡ Ok (row_of self.new, self.new.rest.now) }
        ensures left { self.new.left + self.new.stream + self.new.summary ≡ self.old.left }
        ensures short { self.new.len ≤ LONGEST }
    {
        match self.step() {
            Ok(()) => {}
            Err(_) => unreachable!(),
        }
    }

    /// The term of the row before.
    pub fn term(&self) -> &[u8]
        requires { self.now.len ≤ LONGEST }
        ensures { result.now ≡ term_of self.now }
    {
        &self.term[..self.len]
    }
}
