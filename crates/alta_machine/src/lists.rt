// Lists of cells and of documents, which contracts see as the lists of their members.

use crate::cell::Cell;
use crate::document::Document;
use alta_codec::Listed;

/// Cells, as those of a document.
pub type Cells = Listed<Cell>;

/// Documents.
pub type Documents = Listed<Document>;
