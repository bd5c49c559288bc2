// Phrases: one test behind the other.
ghost use Rattle.std.specs.Prelude.{◌≡◌, ◌≤◌, length, drop};
ghost use Rattle.alta_model.specs.Phrase.{fits, has_phrase};
ghost use Rattle.alta_machine.specs.Patterns.{meets};

use alta_machine::{Cell, Test};

/// Whether neighbouring cells meet the tests, in order.
pub fn has_phrase(tests: &[Test], cells: &[Cell]) -> bool
    ensures { result ≡ has_phrase tests.now cells.now }
{
    let mut start = 0;
    while start < cells.len() {
        if fits(tests, behind(cells, start)) {
            return true;
        }
        start += 1;
    }
    tests.is_empty()
}

/// Whether a cell meets the test.
pub fn is_met(test: &Test, cell: &Cell) -> bool
    ensures { result ≡ meets test.now cell.now }
{
    match test {
        Test::Is(term) => cell.holds(term.as_slice()),
        Test::Begins(start) => cell.begins(start.as_slice()),
    }
}

// The cells from a place on.
fn behind(cells: &[Cell], start: usize) -> &[Cell]
    requires { start ≤ length cells.now }
    ensures { result.now ≡ drop start cells.now }
{
    &cells[start..]
}

// Whether the first cells meet the tests.
fn fits(tests: &[Test], cells: &[Cell]) -> bool
    ensures { result ≡ fits tests.now cells.now }
{
    let mut i = 0;
    while i < tests.len() {
        if i >= cells.len() {
            return false;
        }
        if !is_met(&tests[i], &cells[i]) {
            return false;
        }
        i += 1;
    }
    true
}
