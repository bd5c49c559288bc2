//! The disk as the layers above see it.
#![tactic(auto)]

mod disk;
mod event;
mod fault;
mod file;
mod file_calls;
mod file_fault;
mod fuse;
mod laws;
mod memory;
mod parts;
mod rebuilt;
mod synced;
mod written;

pub use alta_codec::Failed;
pub use disk::Disk;
pub use fault::LoadFault;
pub use file::FileDisk;
pub use file_fault::FileFault;
pub use fuse::FuseDisk;
pub use laws::images_keep_the_firm_bytes;
pub use memory::MemoryDisk;
pub use parts::{read_behind, read_part};
pub use synced::write_synced;
