// Why the root was not switched.
ghost use Rattle.std.specs.Prelude.{◌≡◌};
ghost use Rattle.alta_rewrite.specs.declared.fault.RewriteFault.TheVariants.{Disk as DiskFault, Memory};

use alta_codec::Failed;
use std::alloc::{AllocError, AllocFailed};

/// Why the root was not switched.
#[derive(Clone, Copy, Debug, PartialEq, Eq, Drop)]
pub enum RewriteFault {
    /// A call of the disk failed.
    Disk,
    /// There is too little memory.
    Memory,
    /// A level or the deletion list needs this many bytes, and the greatest gap has that many.
    Full { need: u64, gap: u64 },
}

impl From<Failed> for RewriteFault {
    ghost from_gives = { λ _ e. e ≡ DiskFault };

    fn from(_: Failed) -> Self {
        RewriteFault::Disk
    }
}

impl From<AllocError> for RewriteFault {
    ghost from_gives = { λ _ e. e ≡ Memory };

    fn from(_: AllocError) -> Self {
        RewriteFault::Memory
    }
}

impl<T: Drop> From<AllocFailed<T>> for RewriteFault {
    ghost from_gives = { λ _ e. e ≡ Memory };

    fn from(_: AllocFailed<T>) -> Self {
        RewriteFault::Memory
    }
}
