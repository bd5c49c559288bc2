// A disk in memory whose calls all fail from some call on, as after a stop.
ghost use Rattle.std.specs.Prelude.{◌≡◌, ◌+◌, ◌-◌, ◌≤◌, length, take, drop, IfOk, OnOk, OnErr, IsTrue, ◌==◌};
ghost use Rattle.alta_disk.specs.Disk.{Holds, Torn, Same, Only};
ghost use Rattle.alta_disk.specs.Memory.{memory_state, memory_lawful, IsMemoryCall};

use crate::{Disk, Failed, MemoryDisk};

/// Passes some calls on to a disk in memory, and then fails every call, as if the machine had stopped. A write that
/// it fails leaves its range pending there.
#[derive(Drop)]
pub struct FuseDisk {
    inner: MemoryDisk,
    left: u64,
}

impl FuseDisk {
    ghost use Rattle.alta_disk.specs.Fuse.{fuse_inner, calls_left};

    /// Passes the next `calls` calls on to `inner`.
    pub fn new(inner: MemoryDisk, calls: u64) -> FuseDisk
        ensures inner { fuse_inner result ≡ inner }
        ensures left { calls_left result ≡ calls }
    {
        FuseDisk { inner, left: calls }
    }

    /// The disk inside, as the calls left it.
    pub fn into_inner(self) -> MemoryDisk
        ensures { result ≡ fuse_inner self }
    {
        self.inner
    }

    // Uses up a call, and tells whether none was left.
    fn is_blown(&mut self) -> bool
        ensures blown { result ≡ (self.old.left == 0) }
        ensures new { self.new ≡ record self.old { left = self.old.left - 1 } }
    {
        if self.left == 0 {
            return true;
        }
        self.left -= 1;
        false
    }
}

impl Disk for FuseDisk {
    ghost use Rattle.alta_disk.specs.Fuse.{fuse_inner, IsFuseRead, IsFuseWrite, IsFuseSync};

    ghost tells = { Unit {0} };

    ghost state = { λ d. memory_state d.inner };

    ghost lawful = { λ d. memory_lawful d.inner };

    fn len(&mut self) -> Result<u64, Failed>
        ensures exactly { IsFuseRead self.old self.new result }
        ensures length { IfOk result (λ n. n ≡ length (memory_state (fuse_inner self.old)).content) }
        ensures content { (memory_state (fuse_inner self.new)).content ≡ (memory_state (fuse_inner self.old)).content }
        ensures call { IsMemoryCall 0 Same (fuse_inner self.old) (fuse_inner self.new) result }
    {
        if self.is_blown() {
            return Err(self.inner.count_fault());
        }
        self.inner.len()
    }

    fn read(&mut self, at: u64, buf: &mut [u8]) -> Result<(), Failed>
        requires { at + length buf.old ≤ length (memory_state (fuse_inner self.old)).content }
        ensures exactly { IsFuseRead self.old self.new result }
        ensures bytes { OnOk result (buf.new ≡ take (length buf.old)
            (drop at (memory_state (fuse_inner self.old)).content)) }
        ensures content { (memory_state (fuse_inner self.new)).content ≡ (memory_state (fuse_inner self.old)).content }
        ensures call { IsMemoryCall (length buf.old) Same (fuse_inner self.old) (fuse_inner self.new) result }
    {
        if self.is_blown() {
            return Err(self.inner.count_fault());
        }
        self.inner.read(at, buf)
    }

    fn write(&mut self, at: u64, bytes: &[u8]) -> Result<(), Failed>
        requires inside { at ≤ length (memory_state (fuse_inner self.old)).content }
        requires fits { at + length bytes.now ≤ (memory_state (fuse_inner self.old)).limit }
        ensures exactly { IsFuseWrite at bytes.now self.old self.new result }
        ensures written { OnOk result (Holds (memory_state (fuse_inner self.old)).content at bytes.now
            (memory_state (fuse_inner self.new)).content) }
        ensures stays { OnErr result ((memory_state (fuse_inner self.new)).content
            ≡ (memory_state (fuse_inner self.old)).content) }
        ensures call { IsMemoryCall 0 (Torn at (length bytes.now)) (fuse_inner self.old) (fuse_inner self.new) result }
    {
        if self.is_blown() {
            return Err(self.inner.fail_write(at as usize, bytes.len()));
        }
        self.inner.write(at, bytes)
    }

    fn sync(&mut self) -> Result<(), Failed>
        ensures exactly { IsFuseSync self.old self.new result }
        ensures durable { OnOk result (Only (memory_state (fuse_inner self.old)).content
            (memory_state (fuse_inner self.new)).images) }
        ensures content { (memory_state (fuse_inner self.new)).content ≡ (memory_state (fuse_inner self.old)).content }
        ensures call { IsMemoryCall 0 Same (fuse_inner self.old) (fuse_inner self.new) result }
    {
        if self.is_blown() {
            return Err(self.inner.count_fault());
        }
        self.inner.sync()
    }

    fn limit(&self) -> u64 {
        self.inner.limit()
    }
}
