// A document of a level.
ghost use Rattle.std.specs.Prelude.{◌≡◌, IfOk};

use crate::name::DocName;
use alta_codec::{DocNumber, Loc};
use std::alloc::AllocError;

/// A document of a level: where its cells stand, and how it is called.
#[derive(Drop)]
pub struct DocRow {
    /// The document's number.
    pub number: DocNumber,
    /// The location of its first cell. Each further cell stands at the next location.
    pub first: Loc,
    /// How many cells it has.
    pub cells: u64,
    /// Its name.
    pub name: DocName,
}

impl DocRow {
    /// An equal row, whose name shares the bytes of this one's.
    pub fn copy(&self) -> Result<DocRow, AllocError>
        ensures { IfOk result (λ copy. copy ≡ self.now) }
    {
        Ok(DocRow {
            number: self.number,
            first: self.first,
            cells: self.cells,
            name: self.name.share()?,
        })
    }
}
