// A search forward in a rising list, whose cost grows with the distance to the answer alone.
// Most moves along a list are short, so the next four elements are compared at once before it gallops. One such search serves all
// rising lists of numbers. Spans, which are pairs, have their own, and so has the reading of a level's lists (`ends.rt` of
// alta_level), whose locations stand anywhere.
ghost use Rattle.std.specs.Prelude.{◌≡◌, ℕ, ◌+◌, ◌<◌, ◌≤◌, length, slice_index};
ghost use Rattle.alta_codec.specs.Rising.{IsFirstFrom, IsRising};

/// The first of four indexes from `from` on whose element is at or above `to`, the index behind them where none is.
/// It compares all four, so that no branch depends on which it is.
#[inline(always)]
pub fn near_from(list: &[u64], from: usize, to: u64) -> usize
    requires rising { IsRising list.now }
    requires within { from + 4 ≤ length list.now }
    ensures after { from ≤ result }
    ensures near { result ≤ from + 4 }
    ensures before { (k : ℕ) → from ≤ k → k < result → slice_index list.now k < to }
    ensures found { result < from + 4 → to ≤ slice_index list.now result }
{
    from + usize::from(list[from] < to)
        + usize::from(list[from + 1] < to)
        + usize::from(list[from + 2] < to)
        + usize::from(list[from + 3] < to)
}

/// The first index from `from` on whose element is at or above `to`, the length where there is none.
#[inline(never)]
fn far_from(list: &[u64], from: usize, to: u64) -> usize
    requires rising { IsRising list.now }
    requires within { from ≤ length list.now }
    requires passed { (k : ℕ) → k < from → slice_index list.now k < to }
    ensures { IsFirstFrom list.now from (length list.now) to result }
{
    let mut low = from;
    let mut high = from;
    'gallop: while high < list.len() && list[high] < to {
        low = high + 1;
        let distance = high - from;
        high = if list.len() - low > distance {
            low + distance
        } else {
            list.len()
        };
    }
    'halve: while low < high {
        let middle = low + (high - low) / 2;
        if list[middle] < to {
            low = middle + 1;
        } else {
            high = middle;
        }
    }
    low
}

/// The first index whose element is at or above `to`, the length where there is none. It compares the next four at once, and
/// behind them looks at about 2 log d elements, d being the distance from `from` to the answer.
#[inline(always)]
pub fn index_from(list: &[u64], from: usize, to: u64) -> usize
    requires rising { IsRising list.now }
    requires within { from ≤ length list.now }
    requires passed { (k : ℕ) → k < from → slice_index list.now k < to }
    ensures { IsFirstFrom list.now from (length list.now) to result }
{
    if list.len() - from < 4 {
        return far_from(list, from, to);
    }
    let near = near_from(list, from, to);
    if near < from + 4 {
        near
    } else {
        far_from(list, near, to)
    }
}
