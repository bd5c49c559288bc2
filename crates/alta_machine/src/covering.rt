// The ranges that cover the numbers from one to another.
// The cover is a list by definition too (`cover_of`), beside the rule that fixes it (`Covers`), since the plan of a query names it
// and is a function of the query.
ghost use Rattle.std.specs.Prelude.{◌≡◌, All};
ghost use Rattle.alta_machine.specs.Covers.{Covers, IsRange, cover_of};

use crate::level::greatest;
use crate::range::Range;
use arrayvec::ArrayVec;

/// The ranges that cover the numbers from `a` to `b`: from `a` on the greatest range that begins there and does not pass `b`, then
/// the same behind it. There are at most 62, and none where `b` is below `a`. It takes no memory.
pub fn cover(a: u32, b: u32) -> ArrayVec<Range, 62>
    ensures covers { Covers a b result.items }
    ensures value { result.items ≡ cover_of a b }
    ensures ranges { All IsRange result.items }
{
    let mut ranges = ArrayVec::new();
    let mut next = u64::from(a);
    'steps: while next <= u64::from(b) {
        let step = greatest(next as u32, b);
        ranges.push(step.range);
        next += step.size;
    }
    ranges
}
