//! From a query to its plan, and what the plan finds.
#![tactic(auto)]

mod asked;
mod compiling;
mod conjoining;
mod draft;
mod explaining;
mod laws;
mod plan;

pub use asked::Conjunction;
pub use compiling::compile;
pub use conjoining::{asks_either, asks_stem, asks_title, conjunction};
pub use explaining::explain;
pub use laws::{
    a_plan_finds_numbers, a_plan_is_text, a_range_is_shown, all_parts, atoms_as_one,
    finds_what_matches, not_the_part, one_atom, some_part,
};
pub use plan::{FoundPlan, Plan, Plans};
