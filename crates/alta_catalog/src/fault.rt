// Why entries were not applied.
use thiserror::Error;

/// Why entries were not applied.
#[derive(Clone, Copy, Debug, PartialEq, Eq, Error)]
pub enum CatalogFault {
    /// There was no memory left.
    #[error("no memory is left")]
    Memory,
    /// An entry is not allowed where it stands: the payload of its record is at this place.
    #[error("the index is damaged at {0}")]
    Damaged(u64),
}
