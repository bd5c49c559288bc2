// What has been done to a disk in memory.

/// A write that was done, with its offset and bytes; one that failed, with its offset and length; or a sync that
/// was done.
#[derive(Drop)]
pub enum Event {
    Wrote(u64, Vec<u8>),
    Tore(u64, u64),
    Synced,
}
