// Work on levels: a flush, a merge, and steps of a join, each of which ends with a switch of the root.
ghost use Rattle.std.specs.Prelude.{◌≡◌, ◌==◌, ◌<◌, ◌≤◌, List, true, false, length, take, Ok, Some, None, IfOk, IfErr, OnOk, OnErr, IsTrue, All};
ghost use Rattle.alta_layout.specs.declared.places.TheConstants.{HEAD_BYTES};
ghost use Rattle.alta_layout.specs.Places.{half_start};
ghost use Rattle.alta_catalog.specs.Knowing.{gone_of, memory_of};
ghost use Rattle.alta_content.specs.Parts.{IsPart};
ghost use Rattle.alta_content.specs.Rows.{AreDocuments};
ghost use Rattle.alta_meaning.specs.Opened.{table_rows};
ghost use Rattle.alta_meaning.specs.Work.{flushes, merges, steps};
ghost use Rattle.alta_joins.specs.Contents.{StandsOn};
ghost use Rattle.alta_joins.specs.Jobs.{AreJoinedOn, IsBegun, IsJoining};
ghost use Rattle.alta_memlevel.specs.Added.{Added, HasContent, live_of};
ghost use Rattle.alta_memlevel.specs.Documents.{AreMade, content_of};
ghost use Rattle.alta_merge.specs.Merging.{Merging};
ghost use Rattle.alta_rewrite.specs.Rewrites.{no_content};
ghost use Rattle.alta_root.specs.declared.places.TheConstants.{VERSION};
ghost use Rattle.alta_store.specs.Agreement.{Agrees, HasNoEntry, is_sound, levels_of};
ghost use Rattle.alta_store.specs.Calls.{NoRefusal, Obeys, Writes, is_one, unless_read};
ghost use Rattle.alta_store.specs.Putting.{IsDrained, MayPut, Puts, ReadsLevels};
ghost use Rattle.alta_store.specs.declared.fault.StoreFault.TheVariants.{Memory as MemoryFault};

use crate::fault::{load_fault, rewrite_fault};
use crate::{Store, StoreFault};
use alta_catalog::what_is_gone;
use alta_content::{Content, DocRows, TermLists};
use alta_disk::Disk;
use alta_joins::{Job, begin_oldest, finish_job, merge_levels, run_job, step_job};
use alta_journal::Tail;
use alta_layout::Slot;
use alta_memlevel::drained_documents_are_kept;
use alta_rewrite::{Ends, NextLevels, rewrite};
use alta_root::LEVELS;
use std::alloc::Global;
use std::default::MadeWith;

impl Store {
    /// Makes the live newest documents a level, behind the others, at the first gap that holds it, writes the deletion list where it has
    /// changed, and switches the root; the journal is empty then. Where there are 16 levels and one to write, the two oldest are joined in
    /// the same switch: by the join that goes on, which ends so, or by one of its own. With an empty journal nothing is done, and no disk
    /// is called. While it runs, and when it has answered, each image that a stop may leave stands for the state of before.
    ///
    /// # Errors
    ///
    /// `Full` where no gap below the disk's limit holds a level or the list, with the bytes that are needed and the greatest gap. `Damaged`
    /// exactly where one of two levels that are read has a fault, with the first. `Disk` where a call of the disk failed, and `Memory`. Then
    /// the store may no longer be used.
    pub fn flush<D: Disk>(&mut self, disk: &mut D) -> Result<(), StoreFault>
        requires sound { is_sound self.old ≡ true }
        requires agrees { Agrees D.tells (D.state disk.old) self.old }
        requires limit { HEAD_BYTES ≤ (D.state disk.old).limit }

        ensures obeys { Obeys D.tells flushes (λ s. s) NoRefusal (D.state disk.old)
            (D.state disk.new) self.old self.new result }
        ensures idle { HasNoEntry self.old → (result ≡ Ok tt) × (disk.new ≡ disk.old) × (self.new ≡ self.old) }
        ensures unsound { OnErr result (is_sound self.new ≡ false) }
    {
        if self.has_no_entry() {
            return Ok(());
        }
        match self.put_newest(disk) {
            Ok(()) => Ok(()),
            Err(fault) => Err(self.failed(fault)),
        }
    }

    /// Joins all levels and the newest documents to one level, without the documents that are gone, and switches the root to it; the journal
    /// is empty then, and no end is deleted. A join that goes on is given up. Each level is read once, and one segment is written. With at
    /// most one level, no deletion list and an empty journal nothing is done, and no disk is called. While it runs, and when it has
    /// answered, each image that a stop may leave stands for the state of before.
    ///
    /// # Errors
    ///
    /// `Full` where no gap below the disk's limit holds the level, with the bytes that are needed and the greatest gap. `Damaged` exactly
    /// where a level has a fault, with the first of the oldest one that has any. `Disk` where a call of the disk failed, and `Memory`. Then
    /// the store may no longer be used.
    pub fn merge<D: Disk>(&mut self, disk: &mut D) -> Result<(), StoreFault>
        requires sound { is_sound self.old ≡ true }
        requires agrees { Agrees D.tells (D.state disk.old) self.old }
        requires limit { HEAD_BYTES ≤ (D.state disk.old).limit }

        ensures obeys { Obeys D.tells merges (λ s. s) NoRefusal (D.state disk.old)
            (D.state disk.new) self.old self.new result }
        ensures idle { is_one self.old ≡ true → (result ≡ Ok tt) × (disk.new ≡ disk.old) × (self.new ≡ self.old) }
        ensures unsound { OnErr result (is_sound self.new ≡ false) }
    {
        if self.is_one() {
            return Ok(());
        }
        match self.put_merged(disk) {
            Ok(()) => Ok(()),
            Err(fault) => Err(self.failed(fault)),
        }
    }

    /// Moves the join of the two oldest levels on by `n` terms, or by all that are left; where none goes on, one begins, which reads both
    /// levels and leaves out the documents that are gone now. Where no term is left, the root is switched to their join in place of both, and
    /// to the newest documents behind all levels, as a [`flush`](Store::flush) does. With fewer than two levels nothing is done, and no disk
    /// is called. While it runs, and when it has answered, each image that a stop may leave stands for the state of before. A join that
    /// goes on is not on the disk.
    ///
    /// # Errors
    ///
    /// As [`flush`](Store::flush).
    pub fn step<D: Disk>(&mut self, disk: &mut D, n: u64) -> Result<(), StoreFault>
        requires sound { is_sound self.old ≡ true }
        requires agrees { Agrees D.tells (D.state disk.old) self.old }
        requires limit { HEAD_BYTES ≤ (D.state disk.old).limit }

        ensures obeys { Obeys D.tells (steps n) (λ s. s) NoRefusal (D.state disk.old)
            (D.state disk.new) self.old self.new result }
        ensures idle { length (levels_of self.old) < 2 → (result ≡ Ok tt) × (disk.new ≡ disk.old)
            × (self.new ≡ self.old) }
        ensures unsound { OnErr result (is_sound self.new ≡ false) }
    {
        if self.root.levels.len() < 2 {
            return Ok(());
        }
        match self.move_join(disk, n) {
            Ok(()) => Ok(()),
            Err(fault) => Err(self.failed(fault)),
        }
    }

    // Whether the journal has no entry.
    fn has_no_entry(&self) -> bool
        ensures { result ≡ (self.now.tail.place == half_start self.now.tail.slot) }
    {
        self.tail.place == self.tail.slot.half_start()
    }

    // Whether there is nothing to merge.
    fn is_one(&self) -> bool
        ensures { result ≡ is_one self.now }
    {
        self.catalog.levels().len() <= 1 && self.listed.is_empty() && self.has_no_entry()
    }

    // ---- the three tasks

    // Makes the live newest documents a level and switches the root, also where there is none: to the last version, with an empty journal.
    pub(crate) fn put_newest<D: Disk>(&mut self, disk: &mut D) -> Result<(), StoreFault>
        requires agrees { Agrees D.tells (D.state disk.old) self.old }
        requires limit { HEAD_BYTES ≤ (D.state disk.old).limit }

        ensures writes { Writes D.tells (D.state disk.old) (D.state disk.new) self.old self.new result }
        ensures none { OnOk result (HasNoEntry self.new) }
        ensures version { OnOk result (self.new.root.version ≡ VERSION) }
    {
        let newest = match self.drain() {
            Ok(newest) => newest,
            Err(fault) => return Err(fault),
        };
        if self.root.levels.len() < LEVELS || newest.documents.len() == 0 {
            let nothing = no_content(self.alloc);
            let levels = NextLevels {
                oldest: nothing,
                stay_from: 0,
                newest,
            };
            return self.put(disk, levels);
        }
        let oldest = match self.join_oldest(disk) {
            Ok(oldest) => oldest,
            Err(fault) => return Err(fault),
        };
        let levels = NextLevels {
            oldest,
            stay_from: 2,
            newest,
        };
        self.put(disk, levels)
    }

    // A merge where there is something to merge.
    fn put_merged<D: Disk>(&mut self, disk: &mut D) -> Result<(), StoreFault>
        requires agrees { Agrees D.tells (D.state disk.old) self.old }
        requires some { is_one self.old ≡ false }
        requires limit { HEAD_BYTES ≤ (D.state disk.old).limit }

        ensures { Obeys D.tells merges (λ s. s) NoRefusal (D.state disk.old)
            (D.state disk.new) self.old self.new result }
    {
        self.job = None;
        let newest = match self.drain() {
            Ok(newest) => newest,
            Err(fault) => return Err(fault),
        };
        let levels = self.catalog.levels();
        let stay_from = levels.len();
        let gone = self.catalog.gone();
        let oldest = match merge_levels(self.alloc, disk, levels, newest, gone) {
            Ok(oldest) => oldest,
            Err(fault) => return Err(load_fault(fault)),
        };
        let nothing = no_content(self.alloc);
        let levels = NextLevels {
            oldest,
            stay_from,
            newest: nothing,
        };
        self.put(disk, levels)
    }

    // A step over two levels at least.
    fn move_join<D: Disk>(&mut self, disk: &mut D, n: u64) -> Result<(), StoreFault>
        requires agrees { Agrees D.tells (D.state disk.old) self.old }
        requires two { 2 ≤ length (levels_of self.old) }
        requires few { length (levels_of self.old) ≤ 16 }
        requires limit { HEAD_BYTES ≤ (D.state disk.old).limit }

        ensures { Obeys D.tells (steps n) (λ s. s) NoRefusal (D.state disk.old)
            (D.state disk.new) self.old self.new result }
    {
        let mut job = match self.take_join(disk) {
            Ok(job) => job,
            Err(fault) => return Err(fault),
        };
        match step_job(&mut job, n) {
            Ok(true) => {}
            Ok(false) => {
                self.job = Some(job);
                return Ok(());
            }
            Err(_) => return Err(StoreFault::Memory),
        }
        let oldest = finish_job(job);
        let newest = match self.drain() {
            Ok(newest) => newest,
            Err(fault) => return Err(fault),
        };
        let levels = NextLevels {
            oldest,
            stay_from: 2,
            newest,
        };
        self.put(disk, levels)
    }

    // ---- their parts

    // Takes the live ones of the newest documents out.
    fn drain(&mut self) -> Result<Content, StoreFault>
        requires sound { IsTrue (memory_of self.old.catalog).sound }
        requires added { (added : List Added) × HasContent added (memory_of self.old.catalog).content × AreMade added }
        ensures drained { IsDrained self.old self.new }
        ensures job { self.new.job ≡ self.old.job }
        ensures content { (added : List Added) → HasContent added (memory_of self.old.catalog).content → AreMade added
            → IfOk result (λ newest. newest ≡ content_of (live_of (gone_of self.old.catalog) added)) }
        ensures part { IfOk result IsPart }
        ensures memory { IfErr result (λ e. e ≡ MemoryFault) }
    {
        drained_documents_are_kept();
        let mut newest = self.catalog.take_newest();
        match newest.drain_content(self.catalog.gone()) {
            Ok(content) => Ok(content),
            Err(_) => Err(StoreFault::Memory),
        }
    }

    // The join of the two oldest levels that goes on, taken out, or one that begins.
    fn take_join<D: Disk>(&mut self, disk: &mut D) -> Result<Job, StoreFault>
        requires two { 2 ≤ length (levels_of self.old) }
        requires documents { AreDocuments (table_rows (levels_of self.old)) }
        requires stands { D.tells → All (StandsOn (D.state disk.old).content) (levels_of self.old) }
        ensures goes_on { (merging : Merging) → self.old.job ≡ Some merging → result ≡ Ok merging }
        ensures begins { self.old.job ≡ None → IfOk result
            (λ job. (joining : IsJoining (levels_of self.old) (gone_of self.old.catalog) job) × IsBegun joining
            × (D.tells → AreJoinedOn (D.state disk.old).content joining)) }
        ensures reads { ReadsLevels D.tells (unless_read self.old.job (take 2 (levels_of self.old))) (D.state disk.old)
            (D.state disk.new) result }
        ensures taken { self.new ≡ record self.old { job = None } }
    {
        let goes_on = self.job.take();
        if let Some(job) = goes_on {
            return Ok(job);
        }
        match begin_oldest(self.alloc, disk, self.catalog.levels(), self.catalog.gone()) {
            Ok(job) => Ok(job),
            Err(fault) => Err(load_fault(fault)),
        }
    }

    // What the join of the two oldest levels comes to.
    fn join_oldest<D: Disk>(&mut self, disk: &mut D) -> Result<Content, StoreFault>
        requires two { 2 ≤ length (levels_of self.old) }
        requires documents { AreDocuments (table_rows (levels_of self.old)) }
        requires stands { D.tells → All (StandsOn (D.state disk.old).content) (levels_of self.old) }
        ensures goes_on { (merging : Merging) → self.old.job ≡ Some merging
            → IfOk result (λ content. content ≡ merging.whole) }
        ensures begins { self.old.job ≡ None → IfOk result (λ content. (merging : Merging)
            × (joining : IsJoining (levels_of self.old) (gone_of self.old.catalog) merging) × IsBegun joining
            × (D.tells → AreJoinedOn (D.state disk.old).content joining) × (content ≡ merging.whole)) }
        ensures reads { ReadsLevels D.tells (unless_read self.old.job (take 2 (levels_of self.old))) (D.state disk.old)
            (D.state disk.new) result }
        ensures taken { self.new ≡ record self.old { job = None } }
    {
        let mut job = match self.take_join(disk) {
            Ok(job) => job,
            Err(fault) => return Err(fault),
        };
        match run_job(&mut job) {
            Ok(()) => Ok(finish_job(job)),
            Err(_) => Err(StoreFault::Memory),
        }
    }

    // Switches the root to other levels. The newest documents were taken out, and the live ones stand in these levels. The tables of the
    // levels that do not stay are dropped before the new ones are spelled. All memory is taken before the first write.
    fn put<D: Disk>(&mut self, disk: &mut D, levels: NextLevels) -> Result<(), StoreFault>
        requires may { (before : Store) × MayPut D.tells (D.state disk.old) before self.old levels }
        requires limit { HEAD_BYTES ≤ (D.state disk.old).limit }

        ensures puts { (before : Store) → MayPut D.tells (D.state disk.old) before self.old levels
            → Puts D.tells levels (D.state disk.old) (D.state disk.new) before self.new result }
        ensures none { OnOk result (HasNoEntry self.new) }
        ensures version { OnOk result (self.new.root.version ≡ VERSION) }
        ensures job { OnOk result (self.new.job ≡ self.old.job) }
    {
        what_is_gone();
        let oldest = levels.oldest.documents.as_slice();
        let newest = levels.newest.documents.as_slice();
        let Ok(prepared) = self.catalog.prepare(oldest, levels.stay_from, newest) else {
            return Err(StoreFault::Memory);
        };
        let Ok(deleted) = Vec::from_slice(self.alloc, prepared.deleted()) else {
            return Err(StoreFault::Memory);
        };
        let (next, location) = self.catalog.bounds();
        let ends = Ends {
            listed: &self.listed,
            deleted: &deleted,
        };
        let done = match rewrite(
            self.alloc, disk, self.slot, &self.root, levels, ends, next, location,
        ) {
            Ok(done) => done,
            Err(fault) => return Err(rewrite_fault(fault)),
        };
        self.catalog.put_levels(prepared, done.oldest, done.newest);
        self.ahead = None;
        self.tail = tail_of(done.slot);
        self.slot = done.slot;
        self.root = done.root;
        self.listed = deleted;
        Ok(())
    }
}

// A content without documents.
fn no_content(alloc: Global) -> Content
    ensures { result ≡ no_content }
{
    Content {
        documents: DocRows::new(alloc),
        lists: TermLists::made_with(alloc),
    }
}

// The tail of a half without records, of a root in this slot.
fn tail_of(slot: Slot) -> Tail
    ensures { (result.slot ≡ slot) × (result.place ≡ half_start slot) }
{
    Tail {
        slot,
        place: slot.half_start(),
    }
}
