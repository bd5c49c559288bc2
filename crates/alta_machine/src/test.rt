// Tests that the cells of a document have to meet.
ghost use Rattle.std.specs.Prelude.{◌≡◌, IfOk};

use alta_codec::{Bytes, Listed};
use std::alloc::AllocError;

/// A test of a cell.
#[derive(Drop)]
pub enum Test {
    /// The cell holds this term.
    Is(Bytes),
    /// The cell holds a term that begins with these bytes.
    Begins(Bytes),
}

impl Test {
    /// An equal test, in memory of its own.
    pub fn copy(&self) -> Result<Test, AllocError>
        ensures { IfOk result (λ t. t ≡ self.now) }
    {
        match self {
            Test::Is(term) => Ok(Test::Is(term.copy()?)),
            Test::Begins(start) => Ok(Test::Begins(start.copy()?)),
        }
    }
}

/// Tests, as those of the words of a phrase in order.
pub type Tests = Listed<Test>;
