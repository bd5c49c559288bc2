// The commands on cursors.
ghost use Rattle.std.specs.Prelude.{◌≡◌, ◌⊎◌, ◌<◌, ◌≤◌, ◌++◌, [], ℕ, nat_le, List, length, codes, decimal, IfOk, IfErr, OnOk, string_bytes, if◌then◌else◌};
ghost use Rattle.alta_machine.specs.PlanOf.{plan_of};
ghost use Rattle.alta_disk.specs.Disk.{DiskState};
ghost use Rattle.alta_meaning.specs.Standing.{StandsFor};
ghost use Rattle.alta_machine.specs.declared.document.State.{State};
ghost use Rattle.alta_machine.specs.Deciding.{answers};
ghost use Rattle.alta_query.specs.View.{shape};
ghost use Rattle.alta_cursors.specs.Open.{AreOpen, IsFetch};
ghost use Rattle.alta_machine.specs.OpenAnswers.{OpenAnswers, least_free, with_opened};
ghost use Rattle.alta_machine.specs.declared.cursors.TheConstants.{CURSORS};
ghost use Rattle.alta_replies.specs.Replies.{IsReply};
ghost use Rattle.alta_replies.specs.Turns.{Turns, TurnsCursors};
ghost use Rattle.alta_machine.specs.Cursors.{closing, fetching, opened_over, opening};
ghost use Rattle.alta_replies.specs.Loading.{LoadsKept, MayLoad, Queries, open_loads, search_loads};
ghost use Rattle.alta_machine.specs.Machine.{IsRefusal};
ghost use Rattle.alta_machine.specs.Searching.{IsNoQuery, row_lines};

use crate::replying::{put_answers, refused, text, written};
use crate::searching::plan_and_load;
use alta_codec::{Steps, Text};
use alta_cursors::{Cursor, Cursors};
use alta_disk::Disk;
use alta_loading::KeptLists;
use alta_query::{Query, parse};
use alta_search::Page;
use alta_store::{Store, StoreFault};
use std::alloc::{AllocError, Global};
use std::marker::Brand;
use std::sync::ledger::{Blank, Ledger};

/// The reply to an open: the number of a cursor over the answers of the text, or that the text is no query, or that as many are
/// open as may be. What it loads of the disk are the lists of the query, and its faults are those of loading them.
pub fn open<D: Disk>(
    alloc: Global,
    disk: &mut D,
    store: &Store,
    kept: &mut KeptLists,
    cursors: &mut Cursors,
    text: &str,
) -> Result<Text, StoreFault>
    requires { MayLoad D.tells (D.state disk.old) store.now kept.old }
    ensures turned { (s : State) (all : List OpenAnswers) → D.tells → StandsFor s (D.state disk.old).content
        → AreOpen cursors.old all → Turns (opening text.now s.documents all) cursors.new result }
    ensures kept { IfOk result (λ reply. IsRefusal reply → cursors.new ≡ cursors.old) }
    ensures queries { Queries D.tells D.state disk.old disk.new store.now kept.old kept.new
        (open_loads store.now cursors.old text.now) (IsNoQuery text.now ⊎ (CURSORS ≤ length cursors.old)) result }
{
    let query = match parse(alloc, text) {
        Ok(query) => query,
        Err(fault) => return refused(alloc, fault),
    };
    let reply = open_query(alloc, disk, store, kept, cursors, &query);
    drop(query);
    reply
}

// The reply to an open of a query.
fn open_query<D: Disk>(
    alloc: Global,
    disk: &mut D,
    store: &Store,
    kept: &mut KeptLists,
    cursors: &mut Cursors,
    query: &Query,
) -> Result<Text, StoreFault>
    requires { MayLoad D.tells (D.state disk.old) store.now kept.old }
    ensures turned { (s : State) (all : List OpenAnswers) → D.tells → StandsFor s (D.state disk.old).content
        → AreOpen cursors.old all
        → Turns (opened_over (answers s.documents (shape query.now)) all) cursors.new result }
    ensures kept { IfOk result (λ reply. IsRefusal reply → cursors.new ≡ cursors.old) }
    ensures queries { Queries D.tells D.state disk.old disk.new store.now kept.old kept.new
        (if nat_le CURSORS (length cursors.old) then [] else search_loads store.now (plan_of (shape query.now)))
        (CURSORS ≤ length cursors.old) result }
{
    if cursors.is_full() {
        return text(alloc, "! too many cursors\n");
    }
    match put_cursor(alloc, disk, store, kept, cursors, query) {
        Ok(number) => numbered(alloc, "cursor", number),
        Err(fault) => Err(fault),
    }
}

// Opens a cursor over the answers of a query, and answers its number.
fn put_cursor<D: Disk>(
    alloc: Global,
    disk: &mut D,
    store: &Store,
    kept: &mut KeptLists,
    cursors: &mut Cursors,
    query: &Query,
) -> Result<u64, StoreFault>
    requires may { MayLoad D.tells (D.state disk.old) store.now kept.old }
    requires room { length cursors.old < CURSORS }
    ensures opened { (s : State) (all : List OpenAnswers) → D.tells → StandsFor s (D.state disk.old).content
        → AreOpen cursors.old all
        → OnOk result (AreOpen cursors.new (with_opened (answers s.documents (shape query.now)) all)) }
    ensures number { IfOk result (λ number. (all : List OpenAnswers) → AreOpen cursors.old all
        → number ≡ least_free all) }
    ensures loads { LoadsKept D.tells store.now kept.new (search_loads store.now (plan_of (shape query.now)))
        (D.state disk.old) (D.state disk.new) result }
{
    let (plan, snapshot) = match plan_and_load(alloc, disk, store, kept, query) {
        Ok(planned) => planned,
        Err(fault) => return Err(fault),
    };
    let Ok(cursor) = Cursor::new(alloc, plan, query, snapshot) else {
        return Err(StoreFault::Memory);
    };
    match cursors.open(cursor) {
        Ok(number) => Ok(number),
        Err(_) => Err(StoreFault::Memory),
    }
}

// What was done, with a cursor's number.
fn numbered(alloc: Global, done: &str, number: u64) -> Result<Text, StoreFault>
    ensures { IsReply (done.now ++ codes " " ++ decimal number ++ codes "\n") result }
{
    match format!(in alloc; "{done} {number}\n") {
        Ok(reply) => Ok(Text::from_string(reply)),
        Err(_) => Err(StoreFault::Memory),
    }
}

/// The reply to a fetch: the next answers of the cursor, so many at most, and whether more are left, or that no cursor has the
/// number. It fails for want of memory alone.
pub fn fetch(
    alloc: Global,
    cursors: &mut Cursors,
    number: u64,
    count: u64,
) -> Result<Text, StoreFault>
    ensures { TurnsCursors (fetching number count) cursors.old cursors.new result }
{
    match next_page(alloc, cursors, number, count) {
        Ok(Some(page)) => written(listed(alloc, &page)),
        Ok(None) => text(alloc, "! no such cursor\n"),
        Err(_) => Err(StoreFault::Memory),
    }
}

// Takes a page off from the cursor with this number. Nobody reads how many steps it took.
fn next_page(
    alloc: Global,
    cursors: &mut Cursors,
    number: u64,
    count: u64,
) -> Result<Option<Page>, AllocError>
    ensures { IfOk result (IsFetch number count cursors.old cursors.new) }
{
    take_page::<Brand>(alloc, cursors, number, count, Blank::new(1))
}

fn take_page<L: Ledger>(
    alloc: Global,
    cursors: &mut Cursors,
    number: u64,
    count: u64,
    blank: Blank,
) -> Result<Option<Page>, AllocError>
    requires name { blank.name ≡ L.name }
    requires parts { blank.parts ≡ L.parts }
    requires shared { 0 < L.parts }
    ensures { IfOk result (IsFetch number count cursors.old cursors.new) }
{
    let mut steps = Steps::<L>::new(blank);
    let page = cursors.fetch(alloc, number, count, &mut steps)?;
    Ok(page)
}

// The answers of a page, a line for each, and whether more are left.
fn listed(alloc: Global, page: &Page) -> Result<String, AllocError>
    ensures { IfOk result (λ reply. string_bytes reply ≡ row_lines page.now.answers
        ++ (if page.now.more then codes "more\n" else codes "end\n")) }
{
    let mut reply = String::new(alloc);
    put_answers(&mut reply, &page.answers)?;
    reply.push_str(if page.more { "more\n" } else { "end\n" })?;
    Ok(reply)
}

/// The reply to a close: that the cursor is closed, or that no cursor has the number. It fails for want of memory alone.
pub fn close(alloc: Global, cursors: &mut Cursors, number: u64) -> Result<Text, StoreFault>
    ensures { TurnsCursors (closing number) cursors.old cursors.new result }
{
    if cursors.close(number) {
        numbered(alloc, "closed", number)
    } else {
        text(alloc, "! no such cursor\n")
    }
}
