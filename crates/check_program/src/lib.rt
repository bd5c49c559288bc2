//! Runs by the top call over a disk and a console in memory, as no script over the program can make them: on disks of few bytes.
//! It holds no product, only tests.
#![tactic(auto)]

#[cfg(test)]
mod all;
#[cfg(test)]
mod calling;
#[cfg(test)]
mod places;
