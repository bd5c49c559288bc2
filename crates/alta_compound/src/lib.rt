//! Readers over other readers: of the union of several lists, and of the last locations of documents.
#![tactic(auto)]

mod any;
mod end;
mod heap;

pub use any::AnyReader;
pub use end::EndReader;
