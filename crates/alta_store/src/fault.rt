// Why a call of the store was not done.
// `thiserror` writes what a fault says; no reply, status line or clause rests on these texts.
ghost use Rattle.std.specs.Prelude.{◌≡◌};
ghost use Rattle.alta_store.specs.Answers.{of_catalog, of_load, of_rewrite, of_root};

use alta_catalog::CatalogFault;
use alta_disk::LoadFault;
use alta_rewrite::RewriteFault;
use alta_root::RootFault;
use thiserror::Error;

/// Why a call of the store was not done.
#[derive(Clone, Copy, Debug, PartialEq, Eq, Error)]
pub enum StoreFault {
    /// A call of the disk failed.
    #[error("a call of the disk failed")]
    Disk,
    /// There was no memory left.
    #[error("no memory is left")]
    Memory,
    /// The content of the disk breaks a rule of the format, first at this place.
    #[error("the index is damaged at {0}")]
    Damaged(u64),
    /// No index is on the disk.
    #[error("no index is on the disk")]
    NoRoot,
    /// What has to be written needs this many bytes, and the greatest gap has that many.
    #[error("{need} bytes are needed, and the greatest gap has {gap}")]
    Full { need: u64, gap: u64 },
    /// A live document has the name.
    #[error("a document has the name")]
    Taken,
    /// No live document has the name.
    #[error("no document has the name")]
    Missing,
    /// No number is left for a document.
    #[error("no number is left for a document")]
    Numbers,
}

/// The fault of a call for which something was not read from the disk.
pub fn load_fault(fault: LoadFault) -> StoreFault
    ensures { result ≡ of_load fault }
{
    match fault {
        LoadFault::Disk => StoreFault::Disk,
        LoadFault::Memory => StoreFault::Memory,
        LoadFault::Damaged(place) => StoreFault::Damaged(place),
    }
}

// The fault of an opening whose entries were not applied.
pub(crate) fn catalog_fault(fault: CatalogFault) -> StoreFault
    ensures { result ≡ of_catalog fault }
{
    match fault {
        CatalogFault::Memory => StoreFault::Memory,
        CatalogFault::Damaged(place) => StoreFault::Damaged(place),
    }
}

// The fault of an opening whose root was not read.
pub(crate) fn root_fault(fault: RootFault) -> StoreFault
    ensures { result ≡ of_root fault }
{
    match fault {
        RootFault::Disk => StoreFault::Disk,
        RootFault::NoRoot => StoreFault::NoRoot,
        RootFault::Damaged(place) => StoreFault::Damaged(place),
    }
}

// The fault of a root that was not switched.
pub(crate) fn rewrite_fault(fault: RewriteFault) -> StoreFault
    ensures { result ≡ of_rewrite fault }
{
    match fault {
        RewriteFault::Disk => StoreFault::Disk,
        RewriteFault::Memory => StoreFault::Memory,
        RewriteFault::Full { need, gap } => StoreFault::Full { need, gap },
    }
}
