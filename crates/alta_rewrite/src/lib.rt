//! A switch of the root to other levels: those from one on stay, and at most one before them and one behind them are written anew.
//!
//! A flush, a merge and a step that ends a join are this one thing:
//!
//! - a flush lets all levels stay, and the newest documents come behind them;
//! - a merge lets none stay, and one content comes in place of all;
//! - where the two oldest levels are joined, their join comes in front of the others, and the newest documents behind.
//!
//! A content without documents has no level. What is written anew takes the first gaps beside the root that counts, in the order
//! of the levels, and then the deletion list where it has changed. So there are at most three pieces, each one write, and then the
//! root is switched. The streams of levels that stay are not looked at, and may be damaged.
#![tactic(auto)]

mod draft;
mod ends;
mod fault;
mod laws;
mod levels;
mod piece;
mod places;
mod putting;
mod rewriting;

pub use ends::Ends;
pub use fault::RewriteFault;
pub use laws::{
    a_content_is_one_level_at_most, a_join_may_be_written, gone_ends_of_levels_to_come,
    what_is_held_may_be_rewritten, what_is_opened_is_spaced, what_is_opened_may_be_rewritten,
    work_is_a_rewrite,
};
pub use levels::NextLevels;
pub use rewriting::{Rewritten, rewrite};
