// Rounds of a move: the leading word goes on to a document, and the other words are asked about it.
ghost use Rattle.std.specs.Prelude.{◌≡◌, ℕ, ◌+◌, ◌<◌, ◌≤◌, map, length, All};
ghost use Rattle.alta_codec.specs.Rising.{IsRising, pred_of, first_from};
ghost use Rattle.alta_codec.specs.declared.location.TheConstants.{TOP};
ghost use Rattle.alta_docread.specs.Tree.{IsAhead};
ghost use Rattle.alta_lead.specs.Moves.{AreAhead, AreMoved, IsUnpassed};
ghost use Rattle.alta_lead.specs.Rounds.{IsTold, IsLed, IsRound, IsGone};

use crate::chains::{bars, bring, lacking, reach};
use alta_codec::{Loc, Steps, TOP};
use alta_compound::EndReader;
use alta_reader::BackReader;
use std::sync::ledger::Ledger;

/// Brings the ends to that of the first document from `to` on in which the leading word has a location, and answers it.
/// It answers `TOP` where there is none.
fn led<R: BackReader, L: Ledger>(
    ends: &mut EndReader<R>,
    words: &mut [R],
    lead: usize,
    to: Loc,
    steps: &mut Steps<L>,
) -> Loc
    requires ends { R.sound ends.old.inner }
    requires words { All R.sound words.old }
    requires lead { lead < length words.old }
    requires some { 0 < to }
    requires top { to ≤ TOP }
    requires ends_ahead { IsAhead (pred_of (R.list ends.old.inner) to + 1) (R.list ends.old.inner)
        (R.location ends.old.inner) }
    requires words_ahead { AreAhead (pred_of (R.list ends.old.inner) to + 1) (map R.list words.old)
        (map R.location words.old) }
    ensures { IsLed R.sound R.list R.all R.location R.left R.cost lead ends.old.inner ends.new.inner words.old
        words.new to result steps.old steps.new }
{
    let end = reach(ends, to, steps);
    if end == TOP {
        return end;
    }
    let at = bring(words, lead, ends.start(), steps);
    reach(ends, at, steps)
}

/// Asks the words about the document from `start` to `end`. It answers `end` where the document has each word and no negated
/// word, else a place behind it before which no other document has.
pub(crate) fn told<R: BackReader, L: Ledger>(
    words: &mut [R],
    negated: &mut [R],
    start: Loc,
    end: Loc,
    steps: &mut Steps<L>,
) -> Loc
    requires words { All R.sound words.old }
    requires negated { All R.sound negated.old }
    requires top { start ≤ TOP }
    requires below { end < TOP }
    requires words_ahead { AreAhead start (map R.list words.old) (map R.location words.old) }
    requires negated_ahead { AreAhead start (map R.list negated.old) (map R.location negated.old) }
    ensures told { IsTold (map R.list words.old) (map R.list negated.old) start end result }
    ensures words { (spent : ℕ) × AreMoved R.sound R.list R.all R.left R.cost 1 words.old words.new spent
        × (spent_on : ℕ) × AreMoved R.sound R.list R.all R.left R.cost 1 negated.old negated.new spent_on
        × (steps.new ≤ steps.old + spent + spent_on) }
    ensures words_ahead { AreAhead start (map R.list words.old) (map R.location words.new) }
    ensures negated_ahead { AreAhead start (map R.list negated.old) (map R.location negated.new) }
{
    let next = lacking(words, start, end, steps);
    if next > end {
        return next;
    }
    if bars(negated, start, end, steps) {
        return end + 1;
    }
    end
}

/// One round from `to` on: a place, and whether it is the first of the list from there on. Else no place of the list from
/// there on is below it.
fn round<R: BackReader, L: Ledger>(
    ends: &mut EndReader<R>,
    words: &mut [R],
    negated: &mut [R],
    lead: usize,
    to: Loc,
    steps: &mut Steps<L>,
) -> (Loc, bool)
    requires ends { R.sound ends.old.inner }
    requires words { All R.sound words.old }
    requires negated { All R.sound negated.old }
    requires lead { lead < length words.old }
    requires some { 0 < to }
    requires top { to ≤ TOP }
    requires unpassed { IsUnpassed R.list R.location
        (record { ends = ends.old.inner; words = words.old; negated = negated.old })
        (pred_of (R.list ends.old.inner) to + 1) }
    ensures { IsRound R.sound R.list R.all R.location R.left R.cost lead
        (record { ends = ends.old.inner; words = words.old; negated = negated.old })
        (record { ends = ends.new.inner; words = words.new; negated = negated.new }) to result.0 result.1
        steps.old steps.new }
{
    let end = led(ends, words, lead, to, steps);
    if end == TOP {
        return (TOP, true);
    }
    let next = told(words, negated, ends.start(), end, steps);
    (next, next == end)
}

/// Goes on to the first place of the list at or above `to`, and answers it.
pub(crate) fn go<R: BackReader, L: Ledger>(
    ends: &mut EndReader<R>,
    words: &mut [R],
    negated: &mut [R],
    lead: usize,
    to: Loc,
    steps: &mut Steps<L>,
) -> Loc
    requires ends { R.sound ends.old.inner }
    requires words { All R.sound words.old }
    requires negated { All R.sound negated.old }
    requires lead { lead < length words.old }
    requires some { 0 < to }
    requires top { to ≤ TOP }
    requires unpassed { IsUnpassed R.list R.location
        (record { ends = ends.old.inner; words = words.old; negated = negated.old })
        (pred_of (R.list ends.old.inner) to + 1) }
    ensures { IsGone R.sound R.list R.all R.location R.left R.cost lead
        (record { ends = ends.old.inner; words = words.old; negated = negated.old })
        (record { ends = ends.new.inner; words = words.new; negated = negated.new }) to result steps.old steps.new }
{
    let mut goal = to;
    'rounds: loop {
        let (next, found) = round(ends, words, negated, lead, goal, steps);
        if found {
            return next;
        }
        goal = next;
    }
}
