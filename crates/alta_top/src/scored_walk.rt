// The best of the documents with a score, by one walk that the uses of a query lead.
// Where the answers of a query are the documents with a score, no reader of its plan is needed: the next location of a use leads to a
// row, and the score of that row is found by going on to the locations behind it. So each list is read once.
ghost use Rattle.std.specs.Prelude.{◌≡◌, ◌+◌, ◌<◌, ◌≤◌, length, IfOk};
ghost use Rattle.alta_codec.specs.Rising.{IsRising};
ghost use Rattle.alta_codec.specs.declared.location.TheConstants.{TOP};
ghost use Rattle.alta_content.specs.Rows.{end_of};
ghost use Rattle.alta_docread.specs.Kept.{has};
ghost use Rattle.alta_top.specs.Ranking.{AreRanked, TakesIn};
ghost use Rattle.alta_top.specs.Scoring.{AreScorable, HasScored, IsScorable};

use crate::ranking::offer;
use crate::scoring::{may_be_scored, score_of};
use alta_codec::{Loc, Steps};
use alta_content::{AllRows, DocRow};
use alta_rank::{Best, Scorer};
use alta_search::TestReader;
use std::alloc::{AllocError, Global};
use std::sync::ledger::Ledger;

/// The first by score of some rows, and how many they are.
#[derive(Drop)]
pub(crate) struct Ranking {
    pub(crate) best: Best,
    pub(crate) total: u64,
}

/// Whether the document of an end was deleted.
fn is_gone(gone: &[Loc], end: Loc) -> bool
    requires { IsRising gone.now }
    ensures { result ≡ has gone.now end }
{
    gone.binary_search(&end).is_ok()
}

/// Scores a row, and takes it in among the best if it has a score and its document was not deleted. It answers 1 then, and else 0.
fn take_in<L: Ledger>(
    alloc: Global,
    best: &mut Best,
    scorer: &mut Scorer<TestReader<'_>>,
    row: &DocRow,
    gone: &[Loc],
    steps: &mut Steps<L>,
) -> Result<u64, AllocError>
    requires few { length scorer.old.uses ≤ 64 }
    requires may { IsScorable scorer.old.asked row.now }
    requires gone { IsRising gone.now }
    ensures has { HasScored scorer.old scorer.new steps.old steps.new }
    ensures asked { scorer.new.asked ≡ end_of row.now }
    ensures count { best.new.count ≡ best.old.count }
    ensures most { IfOk result (λ more. more ≤ 1) }
    ensures takes { IfOk result (λ more. TakesIn scorer.old gone.now row.now best.old.count best.old.kept
        best.new.kept more) }
{
    let score = score_of(scorer, row, steps);
    if score == 0 || is_gone(gone, scorer.asked()) {
        return Ok(0);
    }
    offer(alloc, best, row, score)?;
    Ok(1)
}

/// The first `count` by score of the rows that have one and whose documents were not deleted, and how many these are. It looks only
/// at rows to which the next location of a use leads.
pub(crate) fn best_scored<L: Ledger>(
    alloc: Global,
    scorer: &mut Scorer<TestReader<'_>>,
    rows: &AllRows,
    gone: &[Loc],
    count: u64,
    steps: &mut Steps<L>,
) -> Result<Ranking, AllocError>
    requires below { scorer.old.asked < TOP }
    requires gone { IsRising gone.now }
    ensures scored { HasScored scorer.old scorer.new steps.old steps.new }
    ensures count { IfOk result (λ found. found.best.count ≡ count) }
    ensures ranked { IfOk result (λ found. length scorer.old.uses ≤ 64 → AreScorable scorer.old.asked rows.now
        → AreRanked scorer.old gone.now rows.now count found.best.kept found.total) }
{
    let mut best = Best::new(alloc, count);
    let mut walk = rows.walk();
    let mut total = 0;
    'rows: loop {
        let at = scorer.next(steps);
        let index = match walk.reach(at) {
            Some(index) => index,
            None => return Ok(Ranking { best, total }),
        };
        let row = rows.row(index);
        if !may_be_scored(scorer, row) {
            return Ok(Ranking { best, total });
        }
        total += take_in(alloc, &mut best, scorer, row, gone, steps)?;
    }
}
