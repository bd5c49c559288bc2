// The first by score of the answers that come one after the other.
// Most answers come behind all that are kept, and cost one comparison with the last of the best; the others a pop and a push. The
// heap's order is turned round, so its greatest element is the one that comes last.
ghost use Rattle.std.specs.BinaryHeap.{IsHeap, heap_items};
ghost use Rattle.std.specs.Prelude.{◌≡◌, ◌≢◌, ◌∷◌, ◌++◌, ℕ, [], List, take, map, false, OnOk, AllPairs};
ghost use Rattle.alta_rank.specs.Kept.{IsBest, Keeps, Replaces, has_place};
ghost use Rattle.alta_machine.specs.Ranked.{by_rank, ranked, number_of};
ghost use Rattle.alta_machine.specs.declared.scored.Scored.{Scored};

use alta_machine::Scored;
use std::alloc::{AllocError, Global};
use std::collections::BinaryHeap;
use std::marker::Model;

/// The first by score of the answers that came so far, so many at most: nothing is kept of the others. Contracts see how many
/// are kept at most, and those that are, in no order.
#[derive(Drop)]
pub struct Best {
    count: u64,
    kept: BinaryHeap<Scored>,
}

impl Model for Best {
    ghost use Rattle.std.specs.BinaryHeap.{IsHeap, heap_items};
    ghost use Rattle.alta_rank.specs.Kept.{KeptOf};
    ghost use Rattle.alta_machine.specs.Ranked.{by_rank};

    ghost Value = { KeptOf };

    ghost view = { λ b. record { count = b.count; kept = heap_items b.kept } };

    ghost invariant = { λ b. IsHeap by_rank (heap_items b.kept) };
}

impl Best {
    /// No answers, of which `count` are to be kept at most.
    pub fn new(alloc: Global, count: u64) -> Best
        ensures { result ≡ record { count = count; kept = [] } }
    {
        Best {
            count,
            kept: BinaryHeap::new(alloc),
        }
    }

    /// Whether an answer of this number and score would be kept: fewer are kept than may be, or it comes before one of those. Where
    /// it would not, those that are kept are also the first with it.
    pub fn has_place(&self, number: u64, score: u64) -> bool
        ensures place { result ≡ has_place self.now number score }
        ensures left_out { result ≡ false → (every : List Scored) (name : List ℕ)
            → IsBest self.now.count every self.now.kept
            → IsBest self.now.count (every ++ record { number = number; name = name; score = score }
            ∷ []) self.now.kept }
    {
        if (self.kept.len() as u64) < self.count {
            return true;
        }
        match self.kept.peek() {
            Some(last) => last.score < score || (last.score == score && number < last.number),
            None => false,
        }
    }

    /// Takes an answer in: it stays while there are fewer than are to be kept, and then takes the place of the last of them if
    /// it comes before that. Fails for want of memory alone.
    pub fn put(&mut self, answer: Scored) -> Result<(), AllocError>
        ensures count { self.new.count ≡ self.old.count }
        ensures best { OnOk result ((every : List Scored) → IsBest self.old.count every self.old.kept
            → IsBest self.old.count (every ++ answer ∷ []) self.new.kept) }
    {
        keep(&mut self.kept, answer, self.count)?;
        Ok(())
    }

    /// The answers that are kept, in order: the first of all that came, if the numbers of those differ.
    pub fn into_sorted(self) -> Vec<Scored>
        ensures { (every : List Scored) → AllPairs ◌≢◌ (map number_of every) → IsBest self.count every self.kept
            → result.items ≡ take self.count (ranked every) }
    {
        self.kept.into_sorted_vec()
    }
}

/// Takes an answer in among the best, of which `count` are kept.
fn keep(best: &mut BinaryHeap<Scored>, answer: Scored, count: u64) -> Result<(), AllocError>
    requires { IsHeap by_rank (heap_items best.old) }
    ensures heap { IsHeap by_rank (heap_items best.new) }
    ensures kept { OnOk result (Keeps count (heap_items best.old) answer (heap_items best.new)) }
{
    if (best.len() as u64) < count {
        best.push(answer)?;
        return Ok(());
    }
    replace_last(best, answer)?;
    Ok(())
}

/// Puts an answer in the place of the last of the best, if it comes before that.
fn replace_last(best: &mut BinaryHeap<Scored>, answer: Scored) -> Result<(), AllocError>
    requires { IsHeap by_rank (heap_items best.old) }
    ensures heap { IsHeap by_rank (heap_items best.new) }
    ensures kept { OnOk result (Replaces (heap_items best.old) answer (heap_items best.new)) }
{
    match best.peek() {
        Some(last) if answer < *last => {}
        _ => return Ok(()),
    }
    let _ = best.pop();
    best.push(answer)?;
    Ok(())
}
