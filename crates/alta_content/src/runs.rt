// Runs of documents that stand side by side.
ghost use Rattle.std.specs.Prelude.{◌≡◌, ℕ, ◌+◌, ◌<◌, ◌≤◌, ◌++◌, ◌∷◌, [], map, length, slice_index, IfOk, OnOk};
ghost use Rattle.alta_codec.specs.Rising.{IsRising};
ghost use Rattle.alta_content.specs.Rows.{end_of, ends_of, firsts_of};
ghost use Rattle.alta_content.specs.Runs.{AreRunsOf};

use crate::document::DocRow;
use alta_codec::Loc;
use std::alloc::{AllocError, Global};

/// Runs of documents of which each begins right behind the end of the one before, in rising order.
#[derive(Drop)]
pub struct Runs {
    /// The first location of each.
    pub firsts: Vec<Loc>,
    /// The last location of each.
    pub ends: Vec<Loc>,
}

/// No runs.
fn no_runs(alloc: Global) -> Runs
    ensures firsts { result.firsts.items ≡ [] }
    ensures ends { result.ends.items ≡ [] }
{
    Runs {
        firsts: Vec::new(alloc),
        ends: Vec::new(alloc),
    }
}

/// The last document of the run that begins with one.
fn last_joined(rows: &[DocRow], ends: &[Loc], start: usize) -> usize
    requires ends { ends.now ≡ map end_of rows.now }
    requires rising { IsRising ends.now }
    requires within { start < length rows.now }
    ensures after { start ≤ result }
    ensures within { result < length rows.now }
    ensures joined { (k : ℕ) → start ≤ k → k < result → slice_index (firsts_of rows.now) (k + 1)
        ≡ slice_index (ends_of rows.now) k + 1 }
    ensures parted { result + 1 < length rows.now → slice_index (ends_of rows.now) result + 1
        ≡ slice_index (firsts_of rows.now) (result + 1) → ⊥ }
{
    let mut last = start;
    'joined: while last + 1 < rows.len() && rows[last + 1].first == ends[last] + 1 {
        last += 1;
    }
    last
}

/// Adds the run from one document to another.
fn push_run(
    runs: &mut Runs,
    rows: &[DocRow],
    ends: &[Loc],
    start: usize,
    last: usize,
) -> Result<(), AllocError>
    requires ends { ends.now ≡ map end_of rows.now }
    requires start { start < length rows.now }
    requires last { last < length rows.now }
    ensures firsts { OnOk result (runs.new.firsts.items ≡ runs.old.firsts.items
        ++ slice_index (firsts_of rows.now) start ∷ []) }
    ensures ends { OnOk result (runs.new.ends.items ≡ runs.old.ends.items ++ slice_index (ends_of rows.now) last ∷ []) }
{
    runs.firsts.push(rows[start].first)?;
    runs.ends.push(ends[last])?;
    Ok(())
}

/// The runs of the documents of these rows, whose ends these are. It takes sixteen bytes a run, and fails for want of memory alone.
pub fn runs_of(alloc: Global, rows: &[DocRow], ends: &[Loc]) -> Result<Runs, AllocError>
    requires ends { ends.now ≡ map end_of rows.now }
    requires rising { IsRising (map end_of rows.now) }
    ensures { IfOk result (λ runs. AreRunsOf rows.now runs.firsts.items runs.ends.items) }
{
    let mut runs = no_runs(alloc);
    let mut at = 0;
    'whole: while at < rows.len() {
        let last = last_joined(rows, ends, at);
        push_run(&mut runs, rows, ends, at, last)?;
        at = last + 1;
    }
    Ok(runs)
}
