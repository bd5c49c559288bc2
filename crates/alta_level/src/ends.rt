// The first end of a document at or behind a location, which in most lists is far from the one before.
// Locations of a rare term stand anywhere, so half the branches of a search by halves are foreseen badly: it goes by quarters, and
// adds up three tests in place of a branch.
ghost use Rattle.std.specs.Prelude.{◌≡◌, ℕ, ◌+◌, ◌-◌, ◌*◌, ◌<◌, ◌≤◌, length, slice_index};
ghost use Rattle.alta_codec.specs.Rising.{IsRising};

use alta_codec::{Loc, index_from, near_from};

// Of three parts of so many elements, one behind the other, those are passed that end below `to`: the index behind them. It
// compares all three, so that no branch depends on how many they are.
#[inline(always)]
fn part_from(list: &[Loc], low: usize, part: usize, to: Loc) -> usize
    requires rising { IsRising list.now }
    requires some { 0 < part }
    requires within { low + 3 * part ≤ length list.now }
    ensures after { low ≤ result }
    ensures near { result ≤ low + 3 * part }
    ensures before { (k : ℕ) → low ≤ k → k < result → slice_index list.now k < to }
    ensures found { result < low + 3 * part → to ≤ slice_index list.now (result + part - 1) }
{
    let passed = usize::from(list[low + part - 1] < to)
        + usize::from(list[low + 2 * part - 1] < to)
        + usize::from(list[low + 3 * part - 1] < to);
    low + part * passed
}

// The first index whose element is at or above `to`, the length where there is none, if it is one of the four from an index
// on; else the one behind them.
#[inline(always)]
fn last_from(list: &[Loc], from: usize, to: Loc) -> usize
    requires rising { IsRising list.now }
    requires four { 4 ≤ length list.now }
    requires within { from ≤ length list.now }
    requires passed { (k : ℕ) → k < from → slice_index list.now k < to }
    ensures within { result ≤ length list.now }
    ensures before { (k : ℕ) → k < result → slice_index list.now k < to }
    ensures found { result < length list.now → result < from + 4 → to ≤ slice_index list.now result }
{
    near_from(list, from.min(list.len() - 4), to)
}

// The first index whose element is at or above `to`, the length where there is none, which is known to be one of so many or the one
// behind them. It looks by quarters.
fn quarter_from(list: &[Loc], from: usize, len: usize, to: Loc) -> usize
    requires rising { IsRising list.now }
    requires four { 4 ≤ length list.now }
    requires within { from + len ≤ length list.now }
    requires passed { (k : ℕ) → k < from → slice_index list.now k < to }
    requires ahead { from + len < length list.now → to ≤ slice_index list.now (from + len) }
    ensures within { result ≤ length list.now }
    ensures before { (k : ℕ) → k < result → slice_index list.now k < to }
    ensures found { result < length list.now → to ≤ slice_index list.now result }
{
    let mut low = from;
    let mut left = len;
    'quarters: while left >= 4 {
        let part = left / 4;
        low = part_from(list, low, part, to);
        left -= 3 * part;
    }
    last_from(list, low, to)
}

// So many elements from an index on that the one behind them, if there is one, is at or above `to`: 16, or 16 times as many
// again and again.
fn window_from(list: &[Loc], from: usize, to: Loc) -> usize
    requires { from ≤ length list.now }
    ensures within { from + result ≤ length list.now }
    ensures ahead { from + result < length list.now → to ≤ slice_index list.now (from + result) }
{
    let most = list.len() - from;
    let mut len = most.min(16);
    'gallop: while len < most && list[from + len] < to {
        len = if len < most / 16 { 16 * len } else { most };
    }
    len
}

/// The first index whose element is at or above `to`, the length where there is none, as [`index_from`] answers it, which
/// is for near answers. The documents of a rare term stand anywhere, so that the branches of a search by halves are foreseen badly. Here
/// a branch depends on how far the answer is alone, and so does the cost, which grows with the logarithm of that.
pub fn end_from(list: &[Loc], from: usize, to: Loc) -> usize
    requires rising { IsRising list.now }
    requires within { from ≤ length list.now }
    requires passed { (k : ℕ) → k < from → slice_index list.now k < to }
    ensures within { result ≤ length list.now }
    ensures before { (k : ℕ) → k < result → slice_index list.now k < to }
    ensures found { result < length list.now → to ≤ slice_index list.now result }
{
    if list.len() < 4 {
        return index_from(list, from, to);
    }
    let near = last_from(list, from, to);
    if near < from + 4 {
        return near;
    }
    let len = window_from(list, near, to);
    quarter_from(list, near, len, to)
}
