// Ranges of numbers.

/// The highest level: its one range has all numbers of 32 bits.
pub const LEVELS: u8 = 32;

/// The numbers whose quotient by 2 ^ `level` is `prefix`: 2 ^ `level` numbers, from `prefix` * 2 ^ `level` on.
#[derive(Clone, Copy, Debug, Default, PartialEq, Eq, Drop)]
pub struct Range {
    /// From 0 to 32.
    pub level: u8,
    /// Below 2 ^ (32 - `level`).
    pub prefix: u32,
}
