//! Readers of the ends of the documents that satisfy a plan.
#![tactic(auto)]

mod apart;
mod ends;
mod found;
mod moves;
mod node;
mod reader;

pub use found::Found;
pub use node::{Node, Without};
pub use reader::DocReader;
