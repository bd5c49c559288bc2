// Documents that are added, replaced and deleted, each by one record in the journal.
ghost use Rattle.std.specs.Prelude.{◌≡◌, ◌⊎◌, ◌↔◌, ◌<◌, ◌≤◌, ℕ, true, false, Err, Some, IfOk, IfErr, OnOk};
ghost use Rattle.alta_layout.specs.declared.places.TheConstants.{HEAD_BYTES};
ghost use Rattle.alta_meaning.specs.Entries.{Allows, IsDocument};
ghost use Rattle.alta_machine.specs.Changes.{has_name, number_of, with_added, with_deleted, with_replaced};
ghost use Rattle.alta_meaning.specs.Work.{enters};
ghost use Rattle.alta_journal.specs.Entry.{IsTyped, KeepsRules};
ghost use Rattle.alta_journal.specs.Lent.{entry_of};
ghost use Rattle.alta_journal.specs.declared.entry.Entry.TheVariants.{Add, Delete, Replace};
ghost use Rattle.alta_machine.specs.declared.document.State.{State};
ghost use Rattle.alta_store.specs.Agreement.{Agrees, Knows, is_sound};
ghost use Rattle.alta_store.specs.Calls.{Enters, IsStepFrom, IsStepOf, MakesRoom, NoRefusal, Obeys, RefusesAdd, RefusesPut, RefusesReplace, entry_for, needs_room, with_put};
ghost use Rattle.alta_store.specs.declared.fault.StoreFault.TheVariants.{Taken, Missing, Numbers};

use crate::guess::{Coming, Guess};
use crate::{Store, StoreFault};
use alta_catalog::enter_allowed;
use alta_codec::Text;
use alta_disk::Disk;
use alta_journal::{JournalFault, LentEntry, Ready, append_ahead, is_old, ready};
use std::alloc::{AllocError, Global};

/// A document that was put: its number, and that of the one in whose place it came, where there was one.
#[derive(Clone, Copy, Debug, Drop)]
pub struct Put {
    /// Its number.
    pub number: u64,
    /// The number of the live document that had its name before.
    pub replaced: Option<u64>,
}

impl Store {
    /// Adds a document, in place of the live one with its name where there is one, by one record in the journal. The name is looked up once.
    /// It does as [`add`](Store::add) or [`replace`](Store::replace).
    ///
    /// # Errors
    ///
    /// `Numbers` exactly where no number is left; then nothing was called and nothing has changed. All others as those of
    /// [`add`](Store::add).
    pub fn put_document<D: Disk>(
        &mut self,
        disk: &mut D,
        name: &str,
        title: &str,
        body: &str,
    ) -> Result<Put, StoreFault>
        requires document { IsDocument name.now title.now body.now }
        requires sound { is_sound self.old ≡ true }
        requires agrees { Agrees D.tells (D.state disk.old) self.old }
        requires limit { HEAD_BYTES ≤ (D.state disk.old).limit }

        ensures obeys { (s : State) → Knows self.old s
            → Obeys D.tells (enters (entry_for (number_of name.now s) name.now title.now body.now))
            (with_put (number_of name.now s) name.now title.now body.now) RefusesPut (D.state disk.old)
            (D.state disk.new) self.old self.new result }
        ensures put { (s : State) → Knows self.old s → IfOk result
            (λ put. (put.number ≡ s.next) × (put.replaced ≡ number_of name.now s) × (s.next < 4294967296)) }
        ensures numbers { (s : State) → Knows self.old s → (result ≡ Err Numbers) ↔ (4294967296 ≤ s.next) }
        ensures refused { result ≡ Err Numbers → (disk.new ≡ disk.old) × (self.new ≡ self.old) }
        ensures unsound { IfErr result (λ e. RefusesPut e ⊎ (is_sound self.new ≡ false)) }
    {
        if !self.catalog.has_room() {
            return Err(StoreFault::Numbers);
        }
        let (_, _, number) = self.catalog.counts();
        let replaced = self.catalog.number_of(name);
        match self.enter_put(disk, replaced, name, title, body) {
            Ok(()) => Ok(Put { number, replaced }),
            Err(fault) => Err(self.failed(fault)),
        }
    }

    // Puts a document in place of the one with this number, or adds it where there is none. A number is left for it.
    fn enter_put<D: Disk>(
        &mut self,
        disk: &mut D,
        replaced: Option<u64>,
        name: &str,
        title: &str,
        body: &str,
    ) -> Result<(), StoreFault>
        requires document { IsDocument name.now title.now body.now }
        requires agrees { Agrees D.tells (D.state disk.old) self.old }
        requires named { (s : State) → Knows self.old s → number_of name.now s ≡ replaced }
        requires left { (s : State) → Knows self.old s → s.next < 4294967296 }
        requires limit { HEAD_BYTES ≤ (D.state disk.old).limit }

        ensures { Obeys D.tells (enters (entry_for replaced name.now title.now body.now))
            (with_put replaced name.now title.now body.now) NoRefusal (D.state disk.old)
            (D.state disk.new) self.old self.new result }
    {
        match replaced {
            None => self.enter(disk, &LentEntry::Add { name, title, body }),
            Some(number) => self.enter(
                disk,
                &LentEntry::Replace {
                    number,
                    name,
                    title,
                    body,
                },
            ),
        }
    }

    /// Adds a document, by one record in the journal, and answers its number. Where the root's version can't have the record, a root of the
    /// last version comes first, with the newest documents in a level, and where the record does not fit in the journal, a
    /// [`flush`](Store::flush). The title has no tab, title and body have no newline. While it runs, each image that a stop may leave
    /// stands for the state before or after; once it has answered, each stands for the state after.
    ///
    /// # Errors
    ///
    /// `Taken` exactly where a live document has the name, else `Numbers` exactly where no number is left; then nothing was
    /// called and nothing has changed. `Full` and `Damaged` where the root is switched first, as [`flush`](Store::flush) answers them,
    /// `Disk` where a call of the disk failed, and `Memory`: then the store may no longer be used.
    pub fn add<D: Disk>(
        &mut self,
        disk: &mut D,
        name: &str,
        title: &str,
        body: &str,
    ) -> Result<u64, StoreFault>
        requires document { IsDocument name.now title.now body.now }
        requires sound { is_sound self.old ≡ true }
        requires agrees { Agrees D.tells (D.state disk.old) self.old }
        requires limit { HEAD_BYTES ≤ (D.state disk.old).limit }

        ensures obeys { Obeys D.tells (enters (Add name.now title.now body.now))
            (with_added name.now title.now body.now) RefusesAdd (D.state disk.old)
            (D.state disk.new) self.old self.new result }
        ensures number { (s : State) → Knows self.old s
            → IfOk result (λ n. (n ≡ s.next) × (has_name name.now s ≡ false) × (s.next < 4294967296)) }
        ensures taken { (s : State) → Knows self.old s → (result ≡ Err Taken) ↔ (has_name name.now s ≡ true) }
        ensures numbers { (s : State) → Knows self.old s → (result ≡ Err Numbers)
            ↔ ((has_name name.now s ≡ false) × (4294967296 ≤ s.next)) }
        ensures refused { (result ≡ Err Taken) ⊎ (result ≡ Err Numbers)
            → (disk.new ≡ disk.old) × (self.new ≡ self.old) }
        ensures unsound { IfErr result (λ e. RefusesAdd e ⊎ (is_sound self.new ≡ false)) }
    {
        if self.catalog.number_of(name).is_some() {
            return Err(StoreFault::Taken);
        }
        if !self.catalog.has_room() {
            return Err(StoreFault::Numbers);
        }
        let (_, _, number) = self.catalog.counts();
        match self.enter_put(disk, None, name, title, body) {
            Ok(()) => Ok(number),
            Err(fault) => Err(self.failed(fault)),
        }
    }

    /// Puts a document in place of the live one with its name, by one record in the journal, and answers the number of that one and its own.
    /// A root of the last version, and a [`flush`](Store::flush), come first where they do at [`add`](Store::add). The title has no tab,
    /// title and body have no newline. While it runs, each image that a stop may leave stands for the state before or after, never
    /// for one with both documents or with neither; once it has answered, each stands for the state after.
    ///
    /// # Errors
    ///
    /// `Missing` exactly where no live document has the name, else `Numbers` exactly where no number is left; then nothing was
    /// called and nothing has changed. `Full` and `Damaged` where the root is switched first, as [`flush`](Store::flush) answers them,
    /// `Disk` where a call of the disk failed, and `Memory`: then the store may no longer be used.
    pub fn replace<D: Disk>(
        &mut self,
        disk: &mut D,
        name: &str,
        title: &str,
        body: &str,
    ) -> Result<(u64, u64), StoreFault>
        requires document { IsDocument name.now title.now body.now }
        requires sound { is_sound self.old ≡ true }
        requires agrees { Agrees D.tells (D.state disk.old) self.old }
        requires limit { HEAD_BYTES ≤ (D.state disk.old).limit }

        ensures obeys { (s : State) → (number : ℕ) → Knows self.old s → number_of name.now s ≡ Some number
            → Obeys D.tells (enters (Replace number name.now title.now body.now))
            (with_replaced name.now title.now body.now) RefusesReplace (D.state disk.old)
            (D.state disk.new) self.old self.new result }
        ensures numbers_of { (s : State) → Knows self.old s
            → IfOk result (λ both. (number_of name.now s ≡ Some both.0) × (both.1 ≡ s.next) × (s.next < 4294967296)) }
        ensures missing { (s : State) → Knows self.old s → (result ≡ Err Missing) ↔ (has_name name.now s ≡ false) }
        ensures numbers { (s : State) → Knows self.old s → (result ≡ Err Numbers)
            ↔ ((has_name name.now s ≡ true) × (4294967296 ≤ s.next)) }
        ensures refused { (result ≡ Err Missing) ⊎ (result ≡ Err Numbers)
            → (disk.new ≡ disk.old) × (self.new ≡ self.old) }
        ensures unsound { IfErr result (λ e. RefusesReplace e ⊎ (is_sound self.new ≡ false)) }
    {
        let Some(old) = self.catalog.number_of(name) else {
            return Err(StoreFault::Missing);
        };
        if !self.catalog.has_room() {
            return Err(StoreFault::Numbers);
        }
        let (_, _, new) = self.catalog.counts();
        match self.enter_put(disk, Some(old), name, title, body) {
            Ok(()) => Ok((old, new)),
            Err(fault) => Err(self.failed(fault)),
        }
    }

    /// Deletes the live document with this name, by one record in the journal, and answers its number. Where the record does not fit in
    /// the journal, a flush comes first, as [`flush`](Store::flush). While it runs, each image that a stop may leave stands for the state
    /// before or after; once it has answered, each stands for the state after.
    ///
    /// # Errors
    ///
    /// `Missing` exactly where no live document has the name; then nothing was called and nothing has changed. `Full` and `Damaged` where a
    /// flush comes first, as [`flush`](Store::flush) answers them, `Disk` where a call of the disk failed, and `Memory`: then the store may
    /// no longer be used.
    pub fn delete<D: Disk>(&mut self, disk: &mut D, name: &str) -> Result<u64, StoreFault>
        requires sound { is_sound self.old ≡ true }
        requires agrees { Agrees D.tells (D.state disk.old) self.old }
        requires limit { HEAD_BYTES ≤ (D.state disk.old).limit }

        ensures obeys { (s : State) → (number : ℕ) → Knows self.old s → number_of name.now s ≡ Some number
            → Obeys D.tells (enters (Delete number)) (with_deleted name.now) NoRefusal (D.state disk.old)
            (D.state disk.new) self.old self.new result }
        ensures number { (s : State) → Knows self.old s → IfOk result (λ n. number_of name.now s ≡ Some n) }
        ensures missing { (s : State) → Knows self.old s → (result ≡ Err Missing) ↔ (has_name name.now s ≡ false) }
        ensures refused { result ≡ Err Missing → (disk.new ≡ disk.old) × (self.new ≡ self.old) }
        ensures unsound { IfErr result (λ e. (e ≡ Missing) ⊎ (is_sound self.new ≡ false)) }
    {
        let Some(number) = self.catalog.number_of(name) else {
            return Err(StoreFault::Missing);
        };
        match self.enter_delete(disk, name, number) {
            Ok(()) => Ok(number),
            Err(fault) => Err(self.failed(fault)),
        }
    }

    // Deletes a document that was found.
    fn enter_delete<D: Disk>(
        &mut self,
        disk: &mut D,
        name: &str,
        number: u64,
    ) -> Result<(), StoreFault>
        requires agrees { Agrees D.tells (D.state disk.old) self.old }
        requires named { (s : State) → Knows self.old s → number_of name.now s ≡ Some number }
        requires limit { HEAD_BYTES ≤ (D.state disk.old).limit }

        ensures { Obeys D.tells (enters (Delete number)) (with_deleted name.now) NoRefusal (D.state disk.old)
            (D.state disk.new) self.old self.new result }
    {
        self.enter(disk, &LentEntry::Delete { number })
    }

    /// Makes ready what the call behind the next one will add, by [`add`](Store::add) or [`replace`](Store::replace), so that the next
    /// call writes the body of its record ahead, behind the closed gate that follows its own. It is a guess: the calls do the same
    /// without it, and with another. But a record whose body was written ahead costs one sync, and not two. Nothing is made ready
    /// where memory is wanting.
    pub fn prepare(&mut self, name: &str, title: &str, body: &str)
        requires { IsDocument name.now title.now body.now }
        ensures { self.new ≡ self.old }
    {
        self.guess = match self.coming(name, title, body) {
            Ok(coming) => Guess::of(coming),
            Err(_) => Guess::none(),
        };
    }

    /// Makes nothing ready: the next call writes no body ahead.
    pub fn prepare_nothing(&mut self)
        ensures { self.new ≡ self.old }
    {
        self.guess = Guess::none();
    }

    // The record for a document: an add, or a replacement where a live document has the name.
    fn coming(&self, name: &str, title: &str, body: &str) -> Result<Coming, AllocError>
        requires document { IsDocument name.now title.now body.now }
    {
        let number = self.catalog.number_of(name);
        let ready = match number {
            Some(number) => ready(
                self.alloc,
                &LentEntry::Replace {
                    number,
                    name,
                    title,
                    body,
                },
            )?,
            None => ready(self.alloc, &LentEntry::Add { name, title, body })?,
        };
        Ok(Coming {
            name: Text::of(self.alloc, name)?,
            number,
            ready,
        })
    }

    // ---- entries

    // Enters an entry that the documents allow, behind a switch of the root where the journal has no room for it.
    fn enter<D: Disk>(&mut self, disk: &mut D, entry: &LentEntry<'_>) -> Result<(), StoreFault>
        requires rules { KeepsRules (entry_of entry.now) }
        requires agrees { Agrees D.tells (D.state disk.old) self.old }
        requires allowed { (s : State) → Knows self.old s → Allows s (entry_of entry.now) }
        requires limit { HEAD_BYTES ≤ (D.state disk.old).limit }

        ensures { (step : State → State) → IsStepFrom (entry_of entry.now) step self.old
            → Obeys D.tells (enters (entry_of entry.now)) step NoRefusal (D.state disk.old)
            (D.state disk.new) self.old self.new result }
    {
        let Ok(ready) = ready(self.alloc, entry) else {
            return Err(StoreFault::Memory);
        };
        match self.make_room(disk, entry, &ready) {
            Ok(()) => self.commit(disk, entry, &ready),
            Err(fault) => Err(fault),
        }
    }

    // Makes room in the journal for an entry: by a switch of the root, where there is none.
    fn make_room<D: Disk>(
        &mut self,
        disk: &mut D,
        entry: &LentEntry<'_>,
        ready: &Ready,
    ) -> Result<(), StoreFault>
        requires rules { KeepsRules (entry_of entry.now) }
        requires ready { ready.now.entry ≡ entry_of entry.now }
        requires agrees { Agrees D.tells (D.state disk.old) self.old }
        requires limit { HEAD_BYTES ≤ (D.state disk.old).limit }

        ensures makes { MakesRoom D.tells (entry_of entry.now) (D.state disk.old)
            (D.state disk.new) self.old self.new result }
        ensures room { OnOk result (needs_room self.new (entry_of entry.now) ≡ false) }
    {
        if !self.needs_room(entry, ready) {
            return Ok(());
        }
        self.put_newest(disk)
    }

    // Whether the journal has no room for an entry: the root's version can't have its record, or it does not fit.
    fn needs_room(&self, entry: &LentEntry<'_>, ready: &Ready) -> bool
        requires rules { KeepsRules (entry_of entry.now) }
        requires ready { ready.now.entry ≡ entry_of entry.now }
        ensures { result ≡ needs_room self.now (entry_of entry.now) }
    {
        let is_new = self.root.version == 1 && !is_old(entry);
        is_new || ready.bytes().len() as u64 > self.tail.room()
    }

    // Enters an entry that the documents allow, and for which there is room. All memory is taken before the first write.
    fn commit<D: Disk>(
        &mut self,
        disk: &mut D,
        entry: &LentEntry<'_>,
        ready: &Ready,
    ) -> Result<(), StoreFault>
        requires rules { KeepsRules (entry_of entry.now) }
        requires typed { IsTyped (entry_of entry.now) }
        requires ready { ready.now.entry ≡ entry_of entry.now }
        requires agrees { Agrees D.tells (D.state disk.old) self.old }
        requires allowed { (s : State) → Knows self.old s → Allows s (entry_of entry.now) }
        requires room { needs_room self.old (entry_of entry.now) ≡ false }
        requires limit { HEAD_BYTES ≤ (D.state disk.old).limit }

        ensures enters { (step : State → State) → IsStepOf (entry_of entry.now) step self.old
            → Enters D.tells (entry_of entry.now) step (D.state disk.old) (D.state disk.new) self.old self.new result }
        ensures sound { is_sound self.new ≡ is_sound self.old }
        ensures slot { OnOk result (self.new.slot ≡ self.old.slot) }
    {
        let Ok(()) = enter_allowed(self.alloc, &mut self.catalog, entry) else {
            return Err(StoreFault::Memory);
        };
        let ahead = self.ahead.take();
        let next = self.guess.take(self.root.version, &self.catalog);
        match append_ahead(disk, &mut self.tail, ready, ahead, next) {
            Ok(left) => {
                self.ahead = left;
                Ok(())
            }
            Err(JournalFault::Full { .. }) => unreachable!(),
            Err(JournalFault::Disk) => Err(StoreFault::Disk),
        }
    }
}
