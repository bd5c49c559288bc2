// Lists of rows, which contracts see as the lists of their members.

use crate::document::DocRow;
use alta_codec::Listed;

/// Document rows.
pub type DocRows = Listed<DocRow>;
