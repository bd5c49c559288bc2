//! Levels read from the disk, and joined to one content: window by window at once, or read whole and in slices.
#![tactic(auto)]

mod joining;
mod laws;
mod level;
mod levels;
mod merging;
mod oldest;
mod window;

pub use alta_merge::Job;
pub use joining::{begin_job, finish_job, run_job, step_job};
pub use laws::{
    joins_are_levels, joins_go_on, joins_keep_documents, read_contents_may_join,
    read_levels_are_opened, what_is_held_may_join,
};
pub use level::read_level;
pub use levels::read_levels;
pub use oldest::{begin_oldest, merge_levels};
