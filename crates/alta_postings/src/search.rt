// The first group, and the first row, that reaches a location.
ghost use Rattle.std.specs.Prelude.{ℕ, ◌+◌, ◌-◌, ◌*◌, ◌<◌, ◌≤◌, length};
ghost use Rattle.alta_postings.specs.Table.{field_at, groups_of, IsSummary};

use crate::field::field;

/// The first group whose last location is at or above `to`.
pub fn group_from(bytes: &[u8], count: usize, to: u64) -> usize
    requires some { 0 < count }
    requires kept { IsSummary bytes.now count }
    requires there { to ≤ field_at bytes.now (3 * (count - 1) + 1) }
    ensures within { result < groups_of count }
    ensures found { to ≤ field_at bytes.now (3 * count + result) }
    ensures before { (g : ℕ) → g < result → field_at bytes.now (3 * count + g) < to }
{
    let mut low = 0;
    let mut high = (count + 63) / 64 - 1;
    'halve: while low < high {
        let middle = low + (high - low) / 2;
        if field(bytes, 3 * count + middle) < to {
            low = middle + 1;
        } else {
            high = middle;
        }
    }
    low
}

/// The first row between two whose last location is at or above `to`.
pub fn row_from(bytes: &[u8], from: usize, last: usize, to: u64) -> usize
    requires order { from ≤ last }
    requires within { 8 * (3 * last + 2) ≤ length bytes.now }
    requires rising { (i j : ℕ) → i < j → j ≤ last → field_at bytes.now (3 * i + 1) < field_at bytes.now (3 * j + 1) }
    requires there { to ≤ field_at bytes.now (3 * last + 1) }
    requires passed { (i : ℕ) → i < from → field_at bytes.now (3 * i + 1) < to }
    ensures within { result ≤ last }
    ensures found { to ≤ field_at bytes.now (3 * result + 1) }
    ensures before { (i : ℕ) → i < result → field_at bytes.now (3 * i + 1) < to }
{
    let mut low = from;
    let mut high = last;
    'halve: while low < high {
        let middle = low + (high - low) / 2;
        if field(bytes, 3 * middle + 1) < to {
            low = middle + 1;
        } else {
            high = middle;
        }
    }
    low
}
