// Uses of tests, by which a document is scored.

use crate::Test;
use alta_codec::Listed;

/// A test that a query uses.
#[derive(Drop)]
pub struct Use {
    /// Whether the query asks for it in the title.
    pub title: bool,
    /// The test.
    pub test: Test,
}

/// Uses, in the order of the query.
pub type Uses = Listed<Use>;
