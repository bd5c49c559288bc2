// The levels of a root to come.

use alta_content::Content;

/// The levels of a root to come. A content without documents has no level.
#[derive(Drop)]
pub struct NextLevels {
    /// What comes in place of the levels that do not stay.
    pub oldest: Content,
    /// The index of the first level that stays; those behind it stay too.
    pub stay_from: usize,
    /// What comes behind them.
    pub newest: Content,
}
