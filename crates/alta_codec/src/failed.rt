// The answer of a failed call.

/// A call of a disk or of a console failed. The object counts its faults, and that count rose.
#[derive(Clone, Copy, Debug, PartialEq, Eq)]
pub struct Failed;
