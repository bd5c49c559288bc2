//! Command lines and their replies, over any console and any disk.
#![tactic(auto)]

mod demo;
mod giving;
mod laws;
mod serving;
mod session;
mod status;
mod top;
mod working;

pub use laws::{
    a_line_keeps_a_state, a_search_answers_what_matches, the_lines_of_a_dump_restore,
    what_is_opened_may_speak, what_stands_is_held, what_was_answered_is_kept,
    what_was_answered_is_kept_beside_damage,
};
pub use serving::serve;
pub use session::Session;
pub use status::{Status, status_line};
pub use top::alta;
