//! The query language: from text to query and back.
#![tactic(auto)]

mod fault;
mod laws;
mod machine;
mod printing;
mod query;
mod reading;
mod scan;
mod word;

pub use fault::QueryFault;
pub use laws::{a_query_without_values_sees_no_ranges, a_value_finds_numbers};
pub use printing::{print, reads_back};
pub use query::{Atom, Queries, Query, Side};
pub use reading::{
    a_query_asks_for_text, a_query_has_members, a_query_has_ordered_values,
    a_query_is_read_one_way, one_or_other, parse,
};
