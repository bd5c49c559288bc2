// Which calls of a console in memory fail, and how much its takes give.
ghost use Rattle.std.specs.Prelude.{◌≡◌, ◌<◌, ◌↔◌, IsTrue, Contains};
ghost use Rattle.alta_console.specs.Sizes.{piece_size};

// Whether the call with this number is to fail.
pub(crate) fn is_listed(fail: &[u64], number: u64) -> bool
    ensures { IsTrue result ↔ Contains fail.now number }
{
    fail.contains(&number)
}

// How much a take gives, with the sizes still to come, this much room and this much input left.
pub(crate) fn next_size(sizes: &[usize], room: usize, left: usize) -> usize
    ensures value { result ≡ piece_size sizes.now room left }
    ensures some { 0 < room → 0 < left → 0 < result }
{
    match sizes.first() {
        Some(size) => (*size).max(1).min(room).min(left),
        None => room.min(left),
    }
}
