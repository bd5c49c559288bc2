//! What an image of a disk means once levels are on it: what opening finds, the first place that is broken, and the state that it
//! stands for; and what writes, a switch of the root, a flush, a merge and a step do to that. There are laws alone: the crates that open,
//! change and join levels, the catalog and the store are built on them.
#![tactic(auto)]

mod laws;

pub use laws::{
    a_flush_is_in_place, a_flush_keeps_the_state, a_flush_may_stand, a_formatted_disk_is_empty,
    a_join_keeps_the_state, a_place_spares_a_root, a_state_is_ordered, a_switch_keeps_or_changes,
    a_switch_keeps_the_state, a_written_root_may_stand, an_append_keeps_or_adds,
    an_image_is_opened_or_broken, an_image_is_read_one_way, an_image_stands_for_one_state,
    an_image_stays, commands_keep_the_order, entries_are_admitted_as_allowed, gaps_are_computed,
    joins_are_joins, levels_are_placed_apart, what_is_held_goes_on, what_is_held_is_spaced,
    what_is_held_stands, what_is_written_is_read, work_finds_gaps, work_is_in_place,
    work_keeps_the_state, work_stays_well,
};
