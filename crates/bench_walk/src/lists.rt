// The lists of the tests.
ghost use Rattle.std.specs.Prelude.{◌≡◌, ◌<◌, [], ◌∷◌, map, length, All, IsTrue, IfOk, OnOk};
ghost use Rattle.std.specs.List.Sorted.{IsStrictlyIncreasing};
ghost use Rattle.alta_codec.specs.Order.{Precedes};
ghost use Rattle.alta_codec.specs.Rising.{IsRising};
ghost use Rattle.alta_content.specs.Rows.{ends_of};
ghost use Rattle.alta_search.specs.Lists.{stored_list, term_lists, key_of, test_in, test_lists, test_keys, IsCut, AreKeys};
ghost use Rattle.alta_search.specs.Met.{MeetTest, MeetsTest};
ghost use Rattle.alta_search.specs.Newest.{term_meets};

use alta_codec::Bytes;
use alta_content::LevelRows;
use alta_machine::Test;
use alta_machine::kinds::DOCUMENT_END;
use alta_search::{LevelList, Stored, TermLists, TestLists};
use alta_words::Posting;
use std::alloc::{AllocError, Global};
use std::cmp::Ordering;
use std::rc::Rc;
use std::{fs, io};

/// The list of a term, as its files hold it.
#[derive(Drop)]
pub(crate) struct ListFiles {
    /// The term's bytes.
    pub term: Vec<u8>,
    /// The stream.
    pub stream: Vec<u8>,
    /// The summary.
    pub summary: Vec<u8>,
}

/// The files of a term.
fn files_of(rt: &HostRuntime, folder: &str, term: &str) -> io::Result<ListFiles> {
    let alloc = rt.alloc();
    Ok(ListFiles {
        term: Vec::from_slice(alloc, term.as_bytes())?,
        stream: fs::read(rt, format!(in alloc; "{folder}/{term}")?.as_str())?,
        summary: fs::read(rt, format!(in alloc; "{folder}/{term}.summary")?.as_str())?,
    })
}

/// Whether the term meets the test.
fn meets(test: &Test, term: &[u8]) -> bool
    ensures { IsTrue result → IsTrue (term_meets test.now term.now) }
{
    match test {
        Test::Is(wanted) => term == wanted.as_slice(),
        Test::Begins(start) => term.starts_with(start.as_slice()),
    }
}

/// Adds the files of the terms that meet a test.
fn put_files(
    rt: &HostRuntime,
    folder: &str,
    terms: &str,
    test: &Test,
    files: &mut Vec<ListFiles>,
) -> io::Result<()> {
    for term in terms.lines() {
        if meets(test, term.as_bytes()) {
            files.push(files_of(rt, folder, term)?)?;
        }
    }
    Ok(())
}

/// The files of the terms of all tests.
pub(crate) fn files(
    rt: &HostRuntime,
    folder: &str,
    terms: &str,
    tests: &[Test],
) -> io::Result<Vec<ListFiles>> {
    let mut files = Vec::new(rt.alloc());
    for test in tests {
        put_files(rt, folder, terms, test, &mut files)?;
    }
    Ok(files)
}

/// The coded list of a stream and its summary. One that breaks a rule, or that is empty, counts as want of memory.
fn coded(stream: Vec<u8>, summary: Vec<u8>) -> Result<Stored, AllocError>
    ensures rising { IfOk result (λ l. IsRising (stored_list l)) }
    ensures some { IfOk result (λ l. 0 < length (stored_list l)) }
{
    match Posting::check(stream, summary) {
        Ok(posting) => {
            if posting.list_len() == 0 {
                return Err(AllocError);
            }
            Ok(Stored::Coded(posting))
        }
        Err(_) => Err(AllocError),
    }
}

/// The ends of the documents, as their rows have them. Where there is no document, that counts as want of memory.
fn ends(rows: &Rc<LevelRows>) -> Result<Stored, AllocError>
    requires { IsRising (ends_of rows.now.value) }
    ensures rising { IfOk result (λ l. IsRising (stored_list l)) }
    ensures some { IfOk result (λ l. 0 < length (stored_list l)) }
{
    if rows.is_empty() {
        return Err(AllocError);
    }
    Ok(Stored::Ends(rows.clone()?))
}

/// A term with one list.
fn one(alloc: Global, term: Vec<u8>, stored: Stored) -> Result<TermLists, AllocError>
    ensures lists { IfOk result (λ t. term_lists t ≡ stored_list stored ∷ []) }
    ensures key { IfOk result (λ t. key_of t ≡ record { term = term.items; levels = 0 ∷ [] }) }
{
    let mut levels = Vec::new(alloc);
    levels.push(LevelList { level: 0, stored })?;
    let term = Bytes::from_vec(term);
    Ok(TermLists { term, levels })
}

/// The term of some files with its list. That of the documents' ends is held as their rows have it, as in an index.
fn term_of(alloc: Global, files: ListFiles, rows: &Rc<LevelRows>) -> Result<TermLists, AllocError>
    requires { IsRising (ends_of rows.now.value) }
    ensures cut { IfOk result (λ t. IsCut (term_lists t ∷ [])) }
    ensures term { IfOk result (λ t. (key_of t).term ≡ files.term.items) }
    ensures levels { IfOk result (λ t. IsStrictlyIncreasing (key_of t).levels) }
{
    if files.term.as_slice() == [DOCUMENT_END].as_slice() {
        let stored = ends(rows)?;
        return one(alloc, files.term, stored);
    }
    let stored = coded(files.stream, files.summary)?;
    one(alloc, files.term, stored)
}

/// Whether a term comes before another.
fn precedes(term: &[u8], other: &[u8]) -> bool
    ensures { IsTrue result → Precedes term.now other.now }
{
    matches!(term.cmp(other), Ordering::Less)
}

/// Whether the term comes behind all of these.
fn follows(terms: &[TermLists], term: &[u8]) -> bool
    requires { AreKeys (map key_of terms.now) }
    ensures { IsTrue result → All (λ t. Precedes t.term term.now) terms.now }
{
    match terms.split_last() {
        Some((last, _front)) => precedes(last.term.as_slice(), term),
        None => true,
    }
}

/// Adds the term of some files. One that does not meet the test, or is not behind all that are there, counts as want of memory.
fn put_term(
    alloc: Global,
    terms: &mut Vec<TermLists>,
    test: &Test,
    files: ListFiles,
    rows: &Rc<LevelRows>,
) -> Result<(), AllocError>
    requires rising { IsRising (ends_of rows.now.value) }
    requires cut { IsCut (map term_lists terms.old.items) }
    requires keyed { AreKeys (map key_of terms.old.items) }
    requires met { MeetTest test.now (map key_of terms.old.items) }
    ensures cut { OnOk result (IsCut (map term_lists terms.new.items)) }
    ensures keyed { OnOk result (AreKeys (map key_of terms.new.items)) }
    ensures met { OnOk result (MeetTest test.now (map key_of terms.new.items)) }
{
    if !meets(test, files.term.as_slice()) || !follows(terms, files.term.as_slice()) {
        return Err(AllocError);
    }
    let term = term_of(alloc, files, rows)?;
    terms.push(term)?;
    Ok(())
}

/// The terms of these files, which meet the test.
fn terms_of(
    alloc: Global,
    test: &Test,
    all: Vec<ListFiles>,
    rows: &Rc<LevelRows>,
) -> Result<Vec<TermLists>, AllocError>
    requires { IsRising (ends_of rows.now.value) }
    ensures cut { IfOk result (λ ts. IsCut (map term_lists ts.items)) }
    ensures keyed { IfOk result (λ ts. AreKeys (map key_of ts.items)) }
    ensures met { IfOk result (λ ts. MeetTest test.now (map key_of ts.items)) }
{
    let mut terms = Vec::new(alloc);
    for files in all {
        put_term(alloc, &mut terms, test, files, rows)?;
    }
    Ok(terms)
}

/// A test with its lists.
fn lists(
    rt: &HostRuntime,
    folder: &str,
    terms: &str,
    test: Test,
    rows: &Rc<LevelRows>,
) -> io::Result<TestLists>
    requires { IsRising (ends_of rows.now.value) }
    ensures test { IfOk result (λ t. test_in t ≡ test) }
    ensures cut { IfOk result (λ t. IsCut (test_lists t)) }
    ensures keyed { IfOk result (λ t. AreKeys (test_keys t)) }
    ensures met { IfOk result MeetsTest }
{
    let alloc = rt.alloc();
    let mut files = Vec::new(alloc);
    put_files(rt, folder, terms, &test, &mut files)?;
    let terms = terms_of(alloc, &test, files, rows)?;
    Ok(TestLists { test, terms })
}

/// The tests with their lists.
pub(crate) fn tested(
    rt: &HostRuntime,
    folder: &str,
    terms: &str,
    order: Vec<Test>,
    rows: &Rc<LevelRows>,
) -> io::Result<Vec<TestLists>>
    requires { IsRising (ends_of rows.now.value) }
    ensures tests { IfOk result (λ ts. map test_in ts.items ≡ order.items) }
    ensures cut { IfOk result (λ ts. All IsCut (map test_lists ts.items)) }
    ensures keyed { IfOk result (λ ts. All AreKeys (map test_keys ts.items)) }
    ensures met { IfOk result (λ ts. All MeetsTest ts.items) }
{
    let mut tests = Vec::new(rt.alloc());
    for test in order {
        tests.push(lists(rt, folder, terms, test, rows)?)?;
    }
    Ok(tests)
}
