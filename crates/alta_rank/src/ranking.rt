// The first answers by score.
ghost use Rattle.std.specs.Prelude.{◌≡◌, ◌≢◌, take, map, IfOk, AllPairs};
ghost use Rattle.alta_machine.specs.Ranked.{ranked, number_of};

use crate::best::Best;
use alta_machine::Scored;
use std::alloc::{AllocError, Global};

/// The first `count` of these answers, by falling score and then by rising number, all of them where there are no more.
/// Their numbers differ. Fails for want of memory alone; then the list is dropped.
///
/// It keeps `count` answers at most beside the list, so its time is that of one comparison for each answer, and of a move in
/// a heap for each that comes before the last of those kept.
pub fn first(alloc: Global, list: Vec<Scored>, count: u64) -> Result<Vec<Scored>, AllocError>
    requires { AllPairs ◌≢◌ (map number_of list.items) }
    ensures { IfOk result (λ best. best.items ≡ take count (ranked list.items)) }
{
    let mut best = Best::new(alloc, count);
    'answers: for answer in list {
        best.put(answer)?;
    }
    Ok(best.into_sorted())
}
