// Why what stands on a disk was not read.
ghost use Rattle.std.specs.Prelude.{◌≡◌};
ghost use Rattle.alta_disk.specs.declared.fault.LoadFault.TheVariants.{Disk as DiskFault, Memory};

use alta_codec::Failed;
use std::alloc::{AllocError, AllocFailed};

/// Why what stands on a disk was not read.
#[derive(Clone, Copy, Debug, PartialEq, Eq, Drop)]
pub enum LoadFault {
    /// A call of the disk failed.
    Disk,
    /// There was no memory.
    Memory,
    /// What stands there breaks a rule of the format. The place on the disk is that of the first fault.
    Damaged(u64),
}

impl From<Failed> for LoadFault {
    ghost from_gives = { λ _ e. e ≡ DiskFault };

    fn from(_: Failed) -> Self {
        LoadFault::Disk
    }
}

impl From<AllocError> for LoadFault {
    ghost from_gives = { λ _ e. e ≡ Memory };

    fn from(_: AllocError) -> Self {
        LoadFault::Memory
    }
}

impl<T: Drop> From<AllocFailed<T>> for LoadFault {
    ghost from_gives = { λ _ e. e ≡ Memory };

    fn from(_: AllocFailed<T>) -> Self {
        LoadFault::Memory
    }
}
