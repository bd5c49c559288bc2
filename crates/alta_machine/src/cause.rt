// Why a text is no query.

/// Why a text is no query.
#[derive(Clone, Copy, Debug, PartialEq, Eq)]
pub enum Cause {
    /// There is no token.
    Empty,
    /// A text has no word, or one of more than 128 bytes as written or folded.
    Word,
    /// What stands before a `*` isn't one whole word of 2 characters or more, or has more than 128 bytes as written or
    /// folded.
    Prefix,
    /// The distance isn't a number from 1 to 1,000, or a side is neither a word nor a prefix, or stands in a title, or
    /// belongs to another NEAR.
    Near,
    /// What stands behind `name:` is no name.
    Name,
    /// What stands behind `value:` isn't `a..b` of two numbers below 2 ^ 32 without leading zeros, the second no lower.
    Value,
    /// A quote isn't closed.
    Quote,
    /// A `)` closes nothing, or a `(` isn't closed.
    Paren,
    /// An operand is missing.
    Operand,
    /// More than 32 `(` and NOT are open.
    Deep,
    /// There are more than 64 words.
    Many,
    /// Memory was wanting.
    Memory,
}
