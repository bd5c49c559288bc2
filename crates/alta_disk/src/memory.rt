// A disk in memory, which tells everything.
// It counts the calls that found no memory for their record: without that count no clause could tell a range that was forgotten from
// want of memory.
ghost use Rattle.std.specs.Prelude.{◌≡◌, ◌↔◌, ◌⊎◌, ℕ, List, ◌+◌, ◌-◌, ◌^◌, ◌≤◌, min, length, take, drop, IfOk, OnOk, OnErr, IsTrue};
ghost use Rattle.alta_codec.specs.Faults.{Rose};
ghost use Rattle.alta_disk.specs.Disk.{Holds, Torn, Same, Only, Passes};
ghost use Rattle.alta_disk.specs.Images.{Tears, IsFilled};
ghost use Rattle.alta_disk.specs.Media.{Media, start, state_of, content_of};
ghost use Rattle.alta_disk.specs.MediaLaws.{media_lawful};

use crate::written::Written;
use crate::{Disk, Failed};
use std::alloc::{AllocError, Global};

/// A disk in memory. It keeps all writes and syncs since its start, and fails at the calls that it is told to.
///
/// A write or a sync for whose record there is no memory does nothing, answers `Failed` and counts as a fault.
#[derive(Drop)]
pub struct MemoryDisk {
    pub(crate) written: Written,
    limit: u64,
    fail: Vec<u64>,
    calls: u64,
    faults: u64,
    taken: u64,
    // how often there was no memory for the record of a write or a sync
    unrecorded: u64,
    ghost fits: { length (content_of written.content written.first.items) ≤ limit },
}

impl MemoryDisk {
    ghost use Rattle.alta_disk.specs.Memory.{media_of, memory_state, next_call, failing_calls, will_fail, LacksMemory};

    /// A disk with this content, at most `limit` bytes long, with nothing pending. The calls with the numbers in
    /// `fail`, from 1, fail.
    pub fn new(alloc: Global, content: Vec<u8>, limit: u64, fail: Vec<u64>) -> MemoryDisk
        requires { length content.items ≤ limit }
        ensures media { media_of result ≡ start content.items }
        ensures content { (memory_state result).content ≡ content.items }
        ensures images { (c : List ℕ) → ((memory_state result).images c ↔ (c ≡ content.items)) }
        ensures faults { (memory_state result).faults ≡ 0 }
        ensures taken { (memory_state result).taken ≡ 0 }
        ensures limit { (memory_state result).limit ≡ limit }
        ensures next { next_call result ≡ 1 }
        ensures fail { failing_calls result ≡ fail.items }
    {
        MemoryDisk {
            written: Written::new(alloc, content),
            limit,
            fail,
            calls: 0,
            faults: 0,
            taken: 0,
            unrecorded: 0,
        }
    }

    /// An image that a stop now may leave: for pick 0 the content, for 1 what the last sync made firm, for 2 the
    /// content with each pending byte as 0xA5, and for every other pick with each as 0x00.
    pub fn image(&self, alloc: Global, pick: u64) -> Result<Vec<u8>, AllocError>
        ensures image { IfOk result (λ v. (memory_state self.now).images v.items) }
        ensures content { pick ≡ 0 → IfOk result (λ v. v.items ≡ (media_of self.now).content) }
        ensures firm { pick ≡ 1 → IfOk result (λ v. v.items ≡ (media_of self.now).firm) }
        ensures marked { pick ≡ 2 → IfOk result
            (λ v. IsFilled 165 (media_of self.now).pending (media_of self.now).content v.items) }
        ensures cleared { 3 ≤ pick → IfOk result
            (λ v. IsFilled 0 (media_of self.now).pending (media_of self.now).content v.items) }
    {
        match pick {
            0 => {
                let copy = self.written.content().to_vec(alloc)?;
                Ok(copy)
            }
            1 => self.written.firm(alloc),
            2 => self.written.filled(alloc, 0xA5),
            _ => self.written.filled(alloc, 0),
        }
    }

    // Counts a call, and tells whether it is to fail.
    fn fails_now(&mut self) -> bool
        ensures fails { result ≡ will_fail self.old }
        ensures new { self.new ≡ record self.old { calls = next_call self.old } }
    {
        self.calls = self.calls.saturating_add(1);
        self.fail.contains(&self.calls)
    }

    pub(crate) fn count_fault(&mut self) -> Failed
        ensures rose { Rose self.old.faults self.new.faults }
        ensures later { self.old.faults ≤ self.new.faults }
        ensures once { self.new.faults ≡ min (self.old.faults + 1) (2 ^ 64 - 1) }
        ensures same { self.new ≡ record self.old { faults = self.new.faults } }
    {
        self.faults = self.faults.saturating_add(1);
        Failed
    }

    // Counts that there was no memory for a record.
    fn count_unrecorded(&mut self)
        ensures rose { Rose self.old.unrecorded self.new.unrecorded }
        ensures same { self.new ≡ record self.old { unrecorded = self.new.unrecorded } }
    {
        self.unrecorded = self.unrecorded.saturating_add(1);
    }

    // A write that fails. Its range is pending, unless there is no memory to keep that.
    pub(crate) fn fail_write(&mut self, at: usize, n: usize) -> Failed
        requires { at ≤ length (memory_state self.old).content }
        ensures left { Tears at n (media_of self.old) (media_of self.new) ⊎ LacksMemory self.old self.new }
        ensures images { Passes (Torn at n) (memory_state self.old) (memory_state self.new) }
        ensures rose { Rose self.old.faults self.new.faults }
        ensures later { self.old.faults ≤ self.new.faults }
        ensures once { self.new.faults ≡ min (self.old.faults + 1) (2 ^ 64 - 1) }
        ensures taken { self.new.taken ≡ self.old.taken }
        ensures limit { self.new.limit ≡ self.old.limit }
        ensures calls { self.new.calls ≡ self.old.calls }
        ensures fail { self.new.fail.items ≡ self.old.fail.items }
    {
        let failed = self.count_fault();
        match self.written.tear(at, n) {
            Ok(()) => {}
            Err(_) => self.count_unrecorded(),
        }
        failed
    }
}

impl Disk for MemoryDisk {
    ghost use Rattle.alta_disk.specs.Memory.{memory_state, IsMemoryCall, IsMemoryRead, IsMemoryWrite, IsMemorySync};

    ghost tells = { Unit {0} };

    ghost state = { λ m. state_of m.written.first.items m.written.events.items m.faults m.taken m.limit };

    ghost lawful = { λ m. media_lawful m.written.first.items m.written.events.items m.faults m.taken m.limit _ _
        m.written.kept m.fits };

    fn len(&mut self) -> Result<u64, Failed>
        ensures exactly { IsMemoryRead self.old self.new result }
        ensures length { IfOk result (λ n. n ≡ length (memory_state self.old).content) }
        ensures content { (memory_state self.new).content ≡ (memory_state self.old).content }
        ensures call { IsMemoryCall 0 Same self.old self.new result }
    {
        if self.fails_now() {
            return Err(self.count_fault());
        }
        Ok(self.written.content().len() as u64)
    }

    fn read(&mut self, at: u64, buf: &mut [u8]) -> Result<(), Failed>
        requires { at + length buf.old ≤ length (memory_state self.old).content }
        ensures exactly { IsMemoryRead self.old self.new result }
        ensures counted { OnOk result ((memory_state self.new).taken
            ≡ min ((memory_state self.old).taken + length buf.old) (2 ^ 64 - 1)) }
        ensures bytes { OnOk result (buf.new ≡ take (length buf.old) (drop at (memory_state self.old).content)) }
        ensures content { (memory_state self.new).content ≡ (memory_state self.old).content }
        ensures call { IsMemoryCall (length buf.old) Same self.old self.new result }
    {
        if self.fails_now() {
            return Err(self.count_fault());
        }
        self.taken = self.taken.saturating_add(buf.len() as u64);
        let at = at as usize;
        buf.copy_from_slice(&self.written.content()[at..at + buf.len()]);
        Ok(())
    }

    fn write(&mut self, at: u64, bytes: &[u8]) -> Result<(), Failed>
        requires inside { at ≤ length (memory_state self.old).content }
        requires fits { at + length bytes.now ≤ (memory_state self.old).limit }
        ensures exactly { IsMemoryWrite at bytes.now self.old self.new result }
        ensures written { OnOk result (Holds (memory_state self.old).content at bytes.now
            (memory_state self.new).content) }
        ensures stays { OnErr result ((memory_state self.new).content ≡ (memory_state self.old).content) }
        ensures call { IsMemoryCall 0 (Torn at (length bytes.now)) self.old self.new result }
    {
        let at = at as usize;
        if self.fails_now() {
            return Err(self.fail_write(at, bytes.len()));
        }
        match self.written.write(at, bytes) {
            Ok(()) => Ok(()),
            Err(_) => {
                self.count_unrecorded();
                Err(self.count_fault())
            }
        }
    }

    fn sync(&mut self) -> Result<(), Failed>
        ensures exactly { IsMemorySync self.old self.new result }
        ensures durable { OnOk result (Only (memory_state self.old).content (memory_state self.new).images) }
        ensures content { (memory_state self.new).content ≡ (memory_state self.old).content }
        ensures call { IsMemoryCall 0 Same self.old self.new result }
    {
        if self.fails_now() {
            return Err(self.count_fault());
        }
        match self.written.sync() {
            Ok(()) => Ok(()),
            Err(_) => {
                self.count_unrecorded();
                Err(self.count_fault())
            }
        }
    }

    fn limit(&self) -> u64 {
        self.limit
    }
}
