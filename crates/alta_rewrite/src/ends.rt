// The ends of documents that are gone.

use alta_codec::Loc;

/// The ends of the levels' documents that are gone, each list rising.
#[derive(Clone, Copy)]
pub struct Ends<'a> {
    /// Those that the deletion list of the root has.
    pub listed: &'a [Loc],
    /// Those of the levels to come, which the deletion list to come has.
    pub deleted: &'a [Loc],
}
