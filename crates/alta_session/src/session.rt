// A session: a line changes the state, and has a reply.
ghost use Rattle.std.specs.Prelude.{◌≡◌, ◌⊎◌, ◌+◌, ◌++◌, true, codes, decimal, Result, Err, None, Some, IfOk, IfErr, IfSome, OnErr, IsTrue, ◌↔◌};
ghost use Rattle.alta_codec.specs.Name.{IsName};
ghost use Rattle.alta_codec.specs.Bytes.{Lacks};
ghost use Rattle.alta_disk.specs.Disk.{DiskState, Only};
ghost use Rattle.alta_loading.specs.Kept.{IsNoneKept};
ghost use Rattle.alta_machine.specs.declared.document.State.{State};
ghost use Rattle.alta_session.specs.Agreement.{AgreesOn, HasNotFailed};
ghost use Rattle.alta_session.specs.Answering.{Answers, CanAnswer};
ghost use Rattle.alta_replies.specs.Replies.{IsReply};
ghost use Rattle.alta_machine.specs.Command.{adds, deletes};
ghost use Rattle.alta_machine.specs.Lines.{asks, reading_of};
ghost use Rattle.alta_session.specs.Joining.{Works};
ghost use Rattle.alta_replies.specs.Loading.{Loads};
ghost use Rattle.alta_session.specs.Spending.{session_loads};
ghost use Rattle.alta_machine.specs.Machine.{Machine, started_at, step, changed_by, adding, deleting, refusal, Looks, Searches};
ghost use Rattle.alta_session.specs.Spending.{OnlyReads};
ghost use Rattle.alta_session.specs.Tasks.{reply_to_put, task_of, task_of_add, task_of_delete};
ghost use Rattle.alta_store.specs.Agreement.{Keeps};
ghost use Rattle.alta_store.specs.Opening.{Opens};
ghost use Rattle.alta_meaning.specs.Opened.{Opened, IsOpened};
ghost use Rattle.alta_meaning.specs.Standing.{StandsFor};
ghost use Rattle.alta_meaning.specs.Entries.{IsDocument};
ghost use Rattle.alta_session.specs.Working.{work_command, work_task};

use crate::working::{LevelWork, do_work};
use alta_codec::{Text, name_ok};
use alta_cursors::Cursors;
use alta_disk::Disk;
use alta_layout::Slot;
use alta_loading::KeptLists;
use alta_machine::LineFault;
use alta_model::{Line, read_line};
use alta_replies::{Ask, answered, close, dump, explain, fetch, open, text};
use alta_store::{Put, Store, StoreFault};
use memchr::memchr;
use std::alloc::Global;

/// An open index that answers command lines, and the cursors that are open over it.
#[derive(Drop)]
pub struct Session {
    // What searches have learnt of the lists of the levels since these last changed. It stands first: the heap takes back a long
    // list at less cost before the many short pieces of the store.
    kept: KeptLists,
    store: Store,
    cursors: Cursors,
    sound: bool,
}

impl Session {
    /// Opens the index of a disk.
    ///
    /// # Errors
    ///
    /// `Disk` where a call of the disk failed. `Memory` where there is no memory. `NoRoot` where the disk has no
    /// index. `Damaged` where the content breaks a rule of the format, with the first place that shows it.
    pub fn start<D: Disk>(alloc: Global, disk: &mut D) -> Result<Session, StoreFault>
        ensures agrees { (s : State) → (D.tells → StandsFor s (D.state disk.old).content)
            → IfOk result (λ session. AgreesOn D.tells (D.state disk.new) session (started_at s)) }
        ensures can { IfOk result (λ session. CanAnswer D.tells (D.state disk.new) session) }
        ensures job { IfOk result (λ session. session.store.job ≡ None) }
        ensures keeps { (o : Opened) → D.tells → IsOpened o (D.state disk.old).content
            → IfOk result (λ session. Keeps session.store o) }
        ensures opens { Opens D.tells (D.state disk.old) (D.state disk.new) result }
        ensures settled { IfErr result (λ e. (e ≡ StoreFault.Disk)
            ⊎ Only (D.state disk.new).content (D.state disk.new).images) }
    {
        match Store::open(alloc, disk) {
            Ok(store) => Ok(Session {
                store,
                kept: KeptLists::new(alloc),
                cursors: Cursors::new(alloc),
                sound: true,
            }),
            Err(fault) => Err(fault),
        }
    }

    /// Whether lines may be answered: false once one was not.
    pub fn sound(&self) -> bool
        ensures { IsTrue result ↔ HasNotFailed self.now }
    {
        self.sound && self.store.sound()
    }

    /// Looks at the bytes that wait behind the line to come. Where two whole lines wait, and the first adds a document, its record is made
    /// ready, and the line to come may write its body ahead, as [`prepare`](Store::prepare) says. Each line has the same reply and does the
    /// same work without it.
    pub fn look_ahead(&mut self, waiting: &[u8])
        ensures kept { self.new ≡ self.old }
    {
        match first_of_two(waiting) {
            Some(line) => prepare_line(&mut self.store, line),
            None => self.store.prepare_nothing(),
        }
    }

    /// Answers a line, without its newline: changes the index, and gives the reply, which ends with a newline.
    ///
    /// # Errors
    ///
    /// `Disk` where a call of the disk failed. `Memory` where there is no memory. `Full` where a level or the deletion list that the
    /// line writes has no place: with the bytes that it needs and the greatest gap below the limit of the disk. `flush` writes where the
    /// journal has an entry, `merge` where there is something to merge, `step` where its join ends, and a line that adds or deletes
    /// flushes where its record does not fit in the journal or the root is of a version that may not have it. `Damaged` where a list has a fault that the line loads, or that it reads to
    /// join levels, with the first in the order of reading; never where the disk stands for a state. Then the index is as before the
    /// line or as after it, and the session is not sound. `search`, `count`, `open` and `top` load the lists of their query, and `top`
    /// those of the ends of titles behind them, and `dump` the lists of all ends and of all folded words; they write nothing, and read no more than these lists have. An open loads none where as
    /// many cursors are open as may be. `explain`, `fetch`, `close` and
    /// `stats` call no disk and fail for want of memory alone, and so does each line that is refused.
    pub fn line<D: Disk>(
        &mut self,
        alloc: Global,
        disk: &mut D,
        line: &[u8],
    ) -> Result<Text, StoreFault>
        requires one_line { Lacks 10 line.now }
        requires can { CanAnswer D.tells (D.state disk.old) self.old }
        ensures answers { Answers D.tells D.state disk.old disk.new self.old self.new result (λ m. step m line.now)
            (λ m. task_of m line.now) }
        ensures not_sound { OnErr result (¬ (HasNotFailed self.new)) }
        ensures no_disk { Looks line.now → (disk.new ≡ disk.old) × IfErr result (λ e. e ≡ StoreFault.Memory) }
        ensures loads { Searches line.now → Loads D.tells (session_loads self.old line.now) (D.state disk.old)
            (D.state disk.new) result }
        ensures kept { OnlyReads line.now → self.new.store ≡ self.old.store }
        ensures works { Works D.tells D.state disk.old disk.new self.old.store (reading_of line.now) result }
    {
        match self.reply(alloc, disk, line) {
            Ok(reply) => Ok(reply),
            Err(fault) => {
                self.sound = false;
                Err(fault)
            }
        }
    }

    // Answers a line.
    fn reply<D: Disk>(
        &mut self,
        alloc: Global,
        disk: &mut D,
        line: &[u8],
    ) -> Result<Text, StoreFault>
        requires one_line { Lacks 10 line.now }
        requires can { CanAnswer D.tells (D.state disk.old) self.old }
        ensures answers { Answers D.tells D.state disk.old disk.new self.old self.new result (λ m. step m line.now)
            (λ m. task_of m line.now) }
        ensures no_disk { Looks line.now → (disk.new ≡ disk.old) × IfErr result (λ e. e ≡ StoreFault.Memory) }
        ensures loads { Searches line.now → Loads D.tells (session_loads self.old line.now) (D.state disk.old)
            (D.state disk.new) result }
        ensures kept { OnlyReads line.now → self.new.store ≡ self.old.store }
        ensures works { Works D.tells D.state disk.old disk.new self.old.store (reading_of line.now) result }
    {
        let asked = match read_line(line) {
            Ok(asked) => asked,
            Err(fault) => return text(alloc, refusal_of(fault)),
        };
        match asked {
            Line::Add { name, title, body } => self.add(alloc, disk, name, title, body),
            Line::Delete { name } => self.delete(alloc, disk, name),
            Line::Search { text } => {
                answered(alloc, disk, &self.store, &mut self.kept, Ask::Answers, text)
            }
            Line::Count { text } => {
                answered(alloc, disk, &self.store, &mut self.kept, Ask::Count, text)
            }
            Line::Explain { text } => explain(alloc, text),
            Line::OpenCursor { text } => open(
                alloc,
                disk,
                &self.store,
                &mut self.kept,
                &mut self.cursors,
                text,
            ),
            Line::Fetch { cursor, count } => fetch(alloc, &mut self.cursors, cursor, count),
            Line::Close { cursor } => close(alloc, &mut self.cursors, cursor),
            Line::Top { count, text } => answered(
                alloc,
                disk,
                &self.store,
                &mut self.kept,
                Ask::Best(count),
                text,
            ),
            Line::Flush => self.work(alloc, disk, LevelWork::Flush),
            Line::Merge => self.work(alloc, disk, LevelWork::Merge),
            Line::Step { count } => self.work(alloc, disk, LevelWork::Step(count)),
            Line::Stats => stats(alloc, self.store.counts()),
            Line::Dump => dump(alloc, disk, &self.store, &mut self.kept),
        }
    }

    // Adds a document, in place of a live one with its name.
    fn add<D: Disk>(
        &mut self,
        alloc: Global,
        disk: &mut D,
        name: &str,
        title: &str,
        body: &str,
    ) -> Result<Text, StoreFault>
        requires document { IsName name.now → IsDocument name.now title.now body.now }
        requires can { CanAnswer D.tells (D.state disk.old) self.old }
        ensures answers { Answers D.tells D.state disk.old disk.new self.old self.new result
            (λ m. changed_by m (adding name.now title.now body.now m.state))
            (λ m. task_of_add name.now title.now body.now m.state) }
        ensures works { Works D.tells D.state disk.old disk.new self.old.store
            (asks (adds name.now title.now body.now)) result }
    {
        if !name_ok(name.as_bytes()) {
            return text(alloc, "! bad name\n");
        }
        let before = self.store.slot();
        match self.store.put_document(disk, name, title, body) {
            Ok(put) => {
                forget_left(&mut self.kept, &self.store, before);
                put_reply(alloc, put)
            }
            Err(fault) => match fault {
                StoreFault::Numbers => text(alloc, "! no numbers left\n"),
                fault => Err(fault),
            },
        }
    }

    // Deletes a document.
    fn delete<D: Disk>(
        &mut self,
        alloc: Global,
        disk: &mut D,
        name: &str,
    ) -> Result<Text, StoreFault>
        requires { CanAnswer D.tells (D.state disk.old) self.old }
        ensures answers { Answers D.tells D.state disk.old disk.new self.old self.new result
            (λ m. changed_by m (deleting name.now m.state)) (λ m. task_of_delete name.now m.state) }
        ensures works { Works D.tells D.state disk.old disk.new self.old.store (asks (deletes name.now)) result }
    {
        if !name_ok(name.as_bytes()) {
            return text(alloc, "! bad name\n");
        }
        let before = self.store.slot();
        match self.store.delete(disk, name) {
            Ok(number) => {
                forget_left(&mut self.kept, &self.store, before);
                deleted(alloc, number)
            }
            Err(fault) => match fault {
                StoreFault::Missing => text(alloc, "! no such document\n"),
                fault => Err(fault),
            }
        }
    }

    // Answers a line that asks for work on levels.
    fn work<D: Disk>(
        &mut self,
        alloc: Global,
        disk: &mut D,
        work: LevelWork,
    ) -> Result<Text, StoreFault>
        requires { CanAnswer D.tells (D.state disk.old) self.old }
        ensures answers { Answers D.tells D.state disk.old disk.new self.old self.new result (λ m. (m, codes "ok\n"))
            (λ m. Some (work_task work)) }
        ensures works { Works D.tells D.state disk.old disk.new self.old.store (asks (work_command work)) result }
    {
        let before = self.store.slot();
        match do_work(&mut self.store, disk, work) {
            Ok(()) => {
                forget_left(&mut self.kept, &self.store, before);
                text(alloc, "ok\n")
            }
            Err(fault) => Err(fault),
        }
    }
}

// Forgets what is known of the lists of levels, unless this slot counts still: then the levels have stayed.
fn forget_left(kept: &mut KeptLists, store: &Store, before: Slot)
    ensures { IsNoneKept kept.new ⊎ ((store.now.slot ≡ before) × (kept.new ≡ kept.old)) }
{
    if store.slot() != before {
        kept.forget();
    }
}

// The first of the whole lines that these bytes begin with, where there are two.
fn first_of_two(bytes: &[u8]) -> Option<&[u8]>
    ensures { IfSome result (λ line. Lacks 10 line.now) }
{
    let n = memchr(b'\n', bytes)?;
    let _next = memchr(b'\n', &bytes[n + 1..])?;
    Some(&bytes[..n])
}

// Makes ready what a line adds.
fn prepare_line(store: &mut Store, line: &[u8])
    requires { Lacks 10 line.now }
    ensures { store.new ≡ store.old }
{
    let asked = match read_line(line) {
        Ok(asked) => asked,
        Err(_) => return store.prepare_nothing(),
    };
    match asked {
        Line::Add { name, title, body } => prepare_document(store, name, title, body),
        _ => store.prepare_nothing(),
    }
}

// Makes ready a document whose name may be one.
fn prepare_document(store: &mut Store, name: &str, title: &str, body: &str)
    requires { IsName name.now → IsDocument name.now title.now body.now }
    ensures { store.new ≡ store.old }
{
    if name_ok(name.as_bytes()) {
        store.prepare(name, title, body);
    } else {
        store.prepare_nothing();
    }
}

// The reply to a line that is refused.
fn refusal_of(fault: LineFault) -> &'static str
    ensures { result.now ≡ refusal fault }
{
    match fault {
        LineFault::TooLong => "! line too long\n",
        LineFault::NotUtf8 => "! not UTF-8\n",
        LineFault::Unknown => "! unknown command\n",
        LineFault::Bad => "! bad line\n",
    }
}

// The reply to a line that adds, in place of another document or not.
fn put_reply(alloc: Global, put: Put) -> Result<Text, StoreFault>
    ensures { IsReply (reply_to_put put.replaced put.number) result }
{
    match put.replaced {
        None => added(alloc, put.number),
        Some(old) => replaced(alloc, (old, put.number)),
    }
}

// The reply to a document that was added.
fn added(alloc: Global, number: u64) -> Result<Text, StoreFault>
    ensures { IsReply (codes "added " ++ decimal number ++ codes "\n") result }
{
    match format!(in alloc; "added {number}\n") {
        Ok(reply) => Ok(Text::from_string(reply)),
        Err(_) => Err(StoreFault::Memory),
    }
}

// The reply to one that came in place of another: the numbers of the one before and of the new one.
fn replaced(alloc: Global, numbers: (u64, u64)) -> Result<Text, StoreFault>
    ensures { IsReply (codes "replaced " ++ decimal numbers.0 ++ codes " by " ++ decimal numbers.1
        ++ codes "\n") result }
{
    let (old, new) = numbers;
    match format!(in alloc; "replaced {old} by {new}\n") {
        Ok(reply) => Ok(Text::from_string(reply)),
        Err(_) => Err(StoreFault::Memory),
    }
}

// The reply to a line that deletes.
fn deleted(alloc: Global, number: u64) -> Result<Text, StoreFault>
    ensures { IsReply (codes "deleted " ++ decimal number ++ codes "\n") result }
{
    match format!(in alloc; "deleted {number}\n") {
        Ok(reply) => Ok(Text::from_string(reply)),
        Err(_) => Err(StoreFault::Memory),
    }
}

// The reply with the counts of documents and words, and the next number.
fn stats(alloc: Global, counts: (u64, u64, u64)) -> Result<Text, StoreFault>
    ensures { IsReply (codes "documents " ++ decimal counts.0 ++ codes " words " ++ decimal counts.1 ++ codes " next "
        ++ decimal counts.2 ++ codes "\n") result }
{
    let (documents, words, next) = counts;
    match format!(in alloc; "documents {documents} words {words} next {next}\n") {
        Ok(reply) => Ok(Text::from_string(reply)),
        Err(_) => Err(StoreFault::Memory),
    }
}
