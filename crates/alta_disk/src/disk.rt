// A disk with one content, whose written bytes may be torn by a stop until they are synced.
ghost use Rattle.std.specs.Prelude.{◌≡◌, ◌+◌, ◌≤◌, length, take, drop, IfOk, OnOk, OnErr};
ghost use Rattle.alta_disk.specs.Calls.{Charges};
ghost use Rattle.alta_disk.specs.Disk.{DiskState, Holds, Torn, Same, Only, Passes, IsLawful};

use alta_codec::Failed;

/// A disk: one file of bytes, up to a limit. What was written since the last sync may be torn by a stop of the
/// machine: then any bytes may stand in the ranges that were written, and past the old end.
///
/// Each call may fail, and then the disk's count of faults has risen. A call that fails promises the same of the
/// images as one that is done: a failed write leaves its range pending, a failed sync adds no image.
pub trait Disk {
    /// Whether the disk tells its content and the images that a stop may leave. It is a member of the type, so no
    /// call changes it. A disk that does not tell has no images, so clauses on each image need no premise.
    ghost tells: { Type 0 };

    /// What the disk is at this moment.
    ghost state: { Self → DiskState };

    /// The length of the content in bytes, at most `limit()` for every disk.
    fn len(&mut self) -> Result<u64, Failed>
        ensures length { tells → IfOk result (λ n. n ≡ length (state self.old).content) }
        ensures within { IfOk result (λ n. n ≤ (state self.old).limit) }
        ensures content { tells → (state self.new).content ≡ (state self.old).content }
        ensures images { Passes Same (state self.old) (state self.new) }
        ensures charges { Charges 0 (state self.old) (state self.new) result };

    /// Fills `buf` with the content from byte `at` on. The range lies inside the content. After `Err` the bytes of
    /// `buf` are unknown. Done or failed, the count of bytes taken rises by at most the length of `buf`.
    fn read(&mut self, at: u64, buf: &mut [u8]) -> Result<(), Failed>
        requires { tells → at + length buf.old ≤ length (state self.old).content }
        ensures bytes { tells → OnOk result (buf.new ≡ take (length buf.old) (drop at (state self.old).content)) }
        ensures content { tells → (state self.new).content ≡ (state self.old).content }
        ensures images { Passes Same (state self.old) (state self.new) }
        ensures charges { Charges (length buf.old) (state self.old) (state self.new) result };

    /// Writes over what is there from byte `at` on, and past the end. Until a sync, a stop may leave any bytes in
    /// the range. After `Err` the content itself may hold any bytes there.
    fn write(&mut self, at: u64, bytes: &[u8]) -> Result<(), Failed>
        requires inside { tells → at ≤ length (state self.old).content }
        requires fits { at + length bytes.now ≤ (state self.old).limit }
        ensures written { tells → OnOk result (Holds (state self.old).content at bytes.now (state self.new).content) }
        ensures torn { tells → OnErr result (Torn at (length bytes.now) (state self.old).content
            (state self.new).content) }
        ensures images { Passes (Torn at (length bytes.now)) (state self.old) (state self.new) }
        ensures charges { Charges 0 (state self.old) (state self.new) result };

    /// After `Ok` nothing is pending: a stop leaves what a read gives. After `Err` a stop may leave what it might
    /// have left before, and nothing else.
    fn sync(&mut self) -> Result<(), Failed>
        ensures durable { OnOk result (Only (state self.old).content (state self.new).images) }
        ensures content { tells → (state self.new).content ≡ (state self.old).content }
        ensures images { Passes Same (state self.old) (state self.new) }
        ensures charges { Charges 0 (state self.old) (state self.new) result };

    /// The length in bytes that the content never passes. It never changes, and every disk knows it.
    fn limit(&self) -> u64
        ensures { result ≡ (state self.now).limit };

    ghost lawful: { (disk : Self) → IsLawful tells (state disk) };
}
