// The greatest range that begins at a number and ends at another or before.
ghost use Rattle.std.specs.Prelude.{◌≡◌, ◌+◌, ◌^◌, ◌<◌, ◌≤◌};
ghost use Rattle.alta_machine.specs.Covers.{IsGreatest};

use crate::range::{LEVELS, Range};

// A range and how many numbers it has.
#[derive(Clone, Copy, Drop)]
pub struct Step {
    pub range: Range,
    pub size: u64,
}

// The greatest range that begins at this number and has no number above the last one. Its level is raised by one as long as the
// quotient is even and a range twice as long still fits.
pub fn greatest(first: u32, last: u32) -> Step
    requires { first ≤ last }
    ensures greatest { IsGreatest first last result.range }
    ensures size { result.size ≡ 2 ^ result.range.level }
{
    let mut level = 0;
    let mut prefix = first;
    let mut size: u64 = 1;
    let room = u64::from(last - first) + 1;
    'levels: while level < LEVELS && prefix % 2 == 0 && size * 2 <= room {
        level += 1;
        prefix /= 2;
        size *= 2;
    }
    Step {
        range: Range { level, prefix },
        size,
    }
}
