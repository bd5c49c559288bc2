// The open cursors of a run.
ghost use Rattle.std.specs.Prelude.{◌≡◌, ◌≢◌, ◌↔◌, ℕ, ◌+◌, ◌<◌, ◌≤◌, ◌==◌, false, not, List, [], ◌∷◌, ◌++◌, map, filter, length, drop, is_some, All, AllPairs, HoldsAt, IsTrue, IsSome, IfSome, IfNone, IfOk, OnOk, OnErr};
ghost use Rattle.std.specs.List.{list_any};
ghost use Rattle.alta_machine.specs.declared.document.Document.{Document};
ghost use Rattle.alta_machine.specs.OpenAnswers.{OpenAnswers, first_free, least_free, left_of, with_opened, without_cursor};
ghost use Rattle.alta_cursors.specs.Open.{AreLeft, AreOpen, AreLazySteps, IsPageOf, IsFetch, cursor_number, work_of};
ghost use Rattle.alta_search.specs.Plans.{lists, locations};
ghost use Rattle.alta_search.specs.Walked.{AreSearchSteps};

use crate::cursor::Cursor;
use alta_codec::Steps;
use alta_machine::CURSORS;
use alta_search::Page;
use std::alloc::{AllocError, Global};
use std::marker::Model;
use std::sync::ledger::Ledger;

/// An open cursor and its number.
#[derive(Drop)]
pub struct OpenCursor {
    /// The number.
    pub number: u64,
    /// The cursor.
    pub cursor: Cursor,
}

/// The open cursors of a run, each with a number from 1 to [`CURSORS`] that no other one has. Contracts see them as a list,
/// in the order in which they were opened.
#[derive(Drop)]
pub struct Cursors {
    cursors: Vec<OpenCursor>,
}

impl Model for Cursors {
    ghost use Rattle.std.specs.Coded.{codes};
    ghost use Rattle.std.specs.Prelude.{List, map};
    ghost use Rattle.alta_compile.specs.contracts.plan.Plan as e;
    ghost use Rattle.alta_cursors.specs.declared.cursors.OpenCursor.{OpenCursor};
    ghost use Rattle.alta_cursors.specs.Open.{AreNumbers, cursor_number};

    ghost Value = { List OpenCursor };

    ghost coded = { Prim.hlevel (codes, e.the_row.coded) };

    ghost view = { λ c. c.cursors.items };

    ghost invariant = { λ c. AreNumbers (map cursor_number c.cursors.items) };
}

impl Cursors {
    /// No open cursors. What they take in memory comes from the allocator.
    pub fn new(alloc: Global) -> Cursors
        ensures { result ≡ [] }
    {
        Cursors {
            cursors: Vec::new(alloc),
        }
    }

    /// Whether no further cursor may be opened.
    pub fn is_full(&self) -> bool
        ensures full { IsTrue result ↔ (CURSORS ≤ length self.now) }
        ensures answers { (all : List OpenAnswers) → AreOpen self.now all → IsTrue result ↔ (CURSORS ≤ length all) }
    {
        self.cursors.len() >= CURSORS
    }

    /// Opens a cursor, and gives it the least number from 1 on that no open cursor has. Fails for want of memory alone; no
    /// cursor is opened then.
    pub fn open(&mut self, cursor: Cursor) -> Result<u64, AllocError>
        requires { length self.old < CURSORS }
        ensures opened { OnOk result ((all : List OpenAnswers) (documents : List Document) → AreOpen self.old all
            → AreLeft cursor documents → AreOpen self.new (with_opened documents all)) }
        ensures free { IfOk result (λ number. number ≡ first_free (length self.old) 1 (map cursor_number self.old)) }
        ensures pushed { IfOk result (λ number. self.new
            ≡ self.old ++ record { number = number; cursor = cursor } ∷ []) }
        ensures number { IfOk result (λ number. (all : List OpenAnswers) → AreOpen self.old all
            → number ≡ least_free all) }
        ensures range { IfOk result (λ number. (1 ≤ number) × (number ≤ CURSORS)) }
        ensures kept { OnErr result (self.new ≡ self.old) }
    {
        let number = free_number(&self.cursors);
        self.cursors.push(OpenCursor { number, cursor })?;
        Ok(number)
    }

    /// The next `count` answers at most of the cursor with this number, and whether more are left; they are taken off.
    /// `None` exactly where no open cursor has the number. It adds at most as many steps as the lists of that cursor's tests
    /// are and have locations; of one Found, where more are left, at most the lists and the locations below the end of the
    /// first answer that is left. Fails for want of memory alone, and all cursors then stand where they stood.
    pub fn fetch<L: Ledger>(
        &mut self,
        alloc: Global,
        number: u64,
        count: u64,
        steps: &mut Steps<L>,
    ) -> Result<Option<Page>, AllocError>
        ensures fetched { IfOk result (IsFetch number count self.old self.new) }
        ensures there { IfOk result (λ page. is_some page ≡ list_any (λ c. c.number == number) self.old) }
        ensures numbers { map cursor_number self.new ≡ map cursor_number self.old }
        ensures most { steps.new ≤ steps.old + work_of number self.old }
        ensures steps { All (λ c. c.number ≡ number
            → AreSearchSteps c.cursor.found c.cursor.snapshot steps.old steps.new) self.old }
        ensures lazy { IfOk result (λ page. IfSome page
            (λ p. All (λ c. c.number ≡ number → AreLazySteps count c.cursor p steps.old steps.new) self.old)) }
        ensures kept { OnErr result (self.new ≡ self.old) }
    {
        fetch_from(&mut self.cursors, alloc, number, count, steps)
    }

    /// Closes the cursor with this number, and answers whether an open cursor had it. Where none had, all stay.
    pub fn close(&mut self, number: u64) -> bool
        ensures has { result ≡ list_any (λ c. c.number == number) self.old }
        ensures rest { self.new ≡ filter (λ c. not (c.number == number)) self.old }
        ensures had { (all : List OpenAnswers) → AreOpen self.old all → IsTrue result ↔ IsSome (left_of number all) }
        ensures closed { (all : List OpenAnswers) → AreOpen self.old all
            → AreOpen self.new (without_cursor number all) }
        ensures kept { result ≡ false → self.new ≡ self.old }
    {
        if !has(&self.cursors, number) {
            return false;
        }
        self.cursors.retain(|other| other.number != number);
        true
    }
}

/// The least number from 1 on that none of these cursors has.
fn free_number(cursors: &[OpenCursor]) -> u64
    requires { length cursors.now < CURSORS }
    ensures { result ≡ first_free (length cursors.now) 1 (map cursor_number cursors.now) }
{
    for tried in 0..cursors.len() as u64 {
        if !has(cursors, tried + 1) {
            return tried + 1;
        }
    }
    cursors.len() as u64 + 1
}

/// Whether one of these cursors has the number.
fn has(cursors: &[OpenCursor], number: u64) -> bool
    ensures { result ≡ list_any (λ c. c.number == number) cursors.now }
{
    cursors.iter().any(|other| other.number == number)
}

/// The index of the cursor with this number, if it is there.
fn place_of(cursors: &[OpenCursor], number: u64) -> Option<usize>
    ensures inside { IfSome result (λ place. place < length cursors.now) }
    ensures there { IfSome result (HoldsAt (λ c. c.number ≡ number) cursors.now) }
    ensures none { IfNone result (All (λ c. c.number ≢ number) cursors.now) }
{
    for (place, other) in cursors.iter().enumerate() {
        if other.number == number {
            return Some(place);
        }
    }
    None
}

/// The next answers of a cursor, so many at most, in words of the documents that are still to come.
fn page_of<L: Ledger>(
    cursor: &mut Cursor,
    alloc: Global,
    count: u64,
    steps: &mut Steps<L>,
) -> Result<Page, AllocError>
    ensures page { IfOk result (λ page. (left : List Document) → AreLeft cursor.old left
        → IsPageOf count left page × AreLeft cursor.new (drop count left)) }
    ensures most { steps.new ≤ steps.old + locations cursor.old.snapshot.cuts + lists cursor.old.snapshot.cuts }
    ensures steps { AreSearchSteps cursor.old.found cursor.old.snapshot steps.old steps.new }
    ensures lazy { IfOk result (λ page. AreLazySteps count cursor.old page steps.old steps.new) }
    ensures kept { OnErr result (cursor.new ≡ cursor.old) }
{
    cursor.fetch(alloc, count, steps)
}

/// The next answers of the cursor with this number.
fn fetch_from<L: Ledger>(
    cursors: &mut [OpenCursor],
    alloc: Global,
    number: u64,
    count: u64,
    steps: &mut Steps<L>,
) -> Result<Option<Page>, AllocError>
    requires { AllPairs (λ a b. a ≢ b) (map cursor_number cursors.old) }
    ensures fetched { IfOk result (IsFetch number count cursors.old cursors.new) }
    ensures there { IfOk result (λ page. is_some page ≡ list_any (λ c. c.number == number) cursors.old) }
    ensures numbers { map cursor_number cursors.new ≡ map cursor_number cursors.old }
    ensures most { steps.new ≤ steps.old + work_of number cursors.old }
    ensures steps { All (λ c. c.number ≡ number
        → AreSearchSteps c.cursor.found c.cursor.snapshot steps.old steps.new) cursors.old }
    ensures lazy { IfOk result (λ page. IfSome page
        (λ p. All (λ c. c.number ≡ number → AreLazySteps count c.cursor p steps.old steps.new) cursors.old)) }
    ensures kept { OnErr result (cursors.new ≡ cursors.old) }
{
    match place_of(cursors, number) {
        None => Ok(None),
        Some(place) => {
            let page = page_of(&mut cursors[place].cursor, alloc, count, steps)?;
            Ok(Some(page))
        }
    }
}
