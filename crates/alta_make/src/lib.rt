//! The lines of a generated run, which adds, deletes and merges documents, and of the report on it.
#![tactic(auto)]

mod line;
mod report;
mod script;

pub use report::report_line;
pub use script::script_line;
