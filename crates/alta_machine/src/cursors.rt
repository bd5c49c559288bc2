// Open cursors.

/// How many cursors may be open at once.
pub const CURSORS: usize = 64;
