// Two tests that are met near each other.
ghost use Rattle.std.specs.Prelude.{◌≡◌, ◌↔◌, IsTrue, Some, if◌then◌else◌};
ghost use Rattle.alta_model.specs.Near.{is_close};
ghost use Rattle.alta_machine.specs.Patterns.{Satisfies, near_pattern};

use crate::phrase::is_met;
use alta_machine::{Cell, Test};

/// Whether two cells that meet the tests stand within the distance.
pub fn holds_near(left: &Test, distance: u16, right: &Test, cells: &[Cell]) -> bool
    ensures { IsTrue result ↔ Satisfies cells.now (near_pattern left.now distance right.now) }
{
    let mut last_left = None;
    let mut last_right = None;
    let mut i = 0;
    while i < cells.len() {
        last_left = later(last_left, i, is_met(left, &cells[i]));
        last_right = later(last_right, i, is_met(right, &cells[i]));
        if are_close(last_left, last_right, distance) {
            return true;
        }
        i += 1;
    }
    false
}

/// The last place where a test was met, after one more place.
pub fn later(last: Option<usize>, place: usize, is_met: bool) -> Option<usize>
    ensures { result ≡ (if is_met then Some place else last) }
{
    if is_met { Some(place) } else { last }
}

fn are_close(left: Option<usize>, right: Option<usize>, distance: u16) -> bool
    ensures { result ≡ is_close left right distance }
{
    match left {
        None => false,
        Some(left) => match right {
            None => false,
            Some(right) => left.abs_diff(right) <= usize::from(distance),
        },
    }
}
