// Documents, and the state that they make up.
// A state's next number is at least 1, also without documents.
ghost use Rattle.std.specs.Prelude.{◌≡◌};
ghost use Rattle.alta_machine.specs.States.{IsState, empty_state};

use crate::lists::{Cells, Documents};
use alta_codec::{DocNumber, Text};
use std::alloc::Global;

/// A document.
#[derive(Drop)]
pub struct Document {
    /// Its number, from 1 on.
    pub number: DocNumber,
    /// Its name, by [`alta_codec::name_ok`].
    pub name: Text,
    /// Its cells, as [`crate::cells`] makes them.
    pub cells: Cells,
}

/// The live documents in rising order of number, and the number that the next one gets.
#[derive(Drop)]
pub struct State {
    /// The next number, above all numbers of the documents.
    pub next: DocNumber,
    /// The live documents. No two have the same name.
    pub documents: Documents,
}

impl State {
    /// The state with which an index begins.
    pub fn new(alloc: Global) -> State
        ensures empty { result ≡ empty_state }
        ensures well_formed { IsState result }
    {
        State {
            next: 1,
            documents: Documents::new(alloc),
        }
    }
}
