//! The journal: entries in records behind gates, each on the disk whole or not at all.
#![tactic(auto)]

mod appending;
mod entry;
mod fields;
mod laws;
mod placed;
mod places;
mod preparing;
mod record;
mod replaying;
mod tail;

pub use appending::{JournalFault, append, append_ahead, close_half};
pub use entry::{Entry, LentEntry};
pub use laws::{a_half_is_read_in_one_way, a_half_is_read_or_broken};
pub use placed::Placed;
pub use places::{PAYLOAD_BYTES, TEXTS_BYTES};
pub use preparing::{is_old, ready};
pub use record::Ready;
pub use replaying::replay;
pub use tail::Tail;
