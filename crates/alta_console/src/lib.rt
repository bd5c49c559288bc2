//! A console: pieces of input are taken and pieces of output are given. A trait says what each call does to the
//! transcript, one console lives in memory, and one is the process's standard streams.
#![tactic(auto)]

mod console;
mod event;
mod memory;
mod sizes;
mod streams;
mod tries;

pub use console::Console;
pub use event::Event;
pub use memory::MemoryConsole;
pub use streams::StdConsole;
