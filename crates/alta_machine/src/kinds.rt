//! The kinds of terms, each the first byte of its terms, how long a word may be, and how many terms a cell may have.
ghost use Rattle.std.specs.Prelude.{◌≡◌, ◌∷◌, IfOk};

use alta_codec::Bytes;
use std::alloc::{AllocError, Global};

/// The kind of a word's term: the folding follows.
pub const WORD: u8 = b'W';

/// The kind of the term of a word as written, where that is not its folding: the spelling follows.
pub const WRITTEN: u8 = b'X';

/// The kind of the term of a document's name: the name follows.
pub const NAME: u8 = b'N';

/// The term at a document's first cell.
pub const START: u8 = b'S';

/// The term at the cell behind the title.
pub const TITLE_END: u8 = b'T';

/// The term at a document's last cell.
pub const DOCUMENT_END: u8 = b'D';

/// How many bytes a word may have, as written and as folded. The cell of a longer word is empty.
pub const WORD_LIMIT: usize = 128;

/// How many terms a cell may have: that of a word's folding, and the 33 range terms of a number.
pub const CELL_LIMIT: usize = 34;

/// The term of a kind with the rest behind it.
pub fn term(alloc: Global, kind: u8, rest: &[u8]) -> Result<Bytes, AllocError>
    ensures { IfOk result (λ term. term ≡ kind ∷ rest.now) }
{
    let mut bytes = Vec::with_capacity(alloc, 1 + rest.len())?;
    bytes.push(kind)?;
    bytes.extend_from_slice(rest)?;
    Ok(Bytes::from_vec(bytes))
}
