// The score of a range of locations.
// It speaks of any lists that have the document's locations in the range asked, and so of no space and no plan. The last end asked
// is kept, so that the one condition on a range is on a number. The end of a title is looked up once a range: a title ends behind a
// location exactly where the last end in the range lies behind it.
ghost use Rattle.std.specs.Prelude.{◌≡◌, ◌↔◌, ◌+◌, ◌-◌, ◌*◌, ◌^◌, ◌<◌, ◌≤◌, map, length, All, sum_by, IsOk, IfOk, IfErr};
ghost use Rattle.alta_codec.specs.Rising.{first_from};
ghost use Rattle.alta_codec.specs.declared.location.TheConstants.{TOP};
ghost use Rattle.alta_rank.specs.Locations.{range_score};
ghost use Rattle.alta_rank.specs.Reads.{LooksOn};
ghost use Rattle.alta_rank.specs.Scoring.{left_of};

use crate::scoring::{last_to, least_from, score_each};
use alta_codec::{Loc, Steps};
use alta_machine::Uses;
use alta_reader::BackReader;
use std::marker::Model;
use std::sync::ledger::Ledger;

/// Scores documents in the order of their locations, by a reader of the list of each use and one of the locations where
/// titles end. Contracts see the readers, the uses, and the last end asked. No call takes memory.
#[derive(Drop)]
pub struct Scorer<R: BackReader> {
    readers: Vec<R>,
    uses: Uses,
    titles: R,
    /// The last end asked, 0 before the first.
    asked: Loc,
}

impl<R: BackReader> Model for Scorer<R> {
    ghost use Rattle.alta_rank.specs.Scoring.{Scoring, IsScoring};

    ghost Value = { Scoring R };

    ghost view = { λ s. record { readers = s.readers.items; uses = s.uses; titles = s.titles; asked = s.asked } };

    ghost invariant = { λ s. IsScoring R.sound R.list R.location
        (record { readers = s.readers.items; uses = s.uses; titles = s.titles; asked = s.asked }) };
}

impl<R: BackReader> Scorer<R> {
    /// A scorer with a reader for each use, in their order, and `titles` for the locations where titles end. No reader
    /// was moved. Err hands all back, exactly where the numbers of readers and uses differ.
    pub fn new(readers: Vec<R>, uses: Uses, titles: R) -> Result<Scorer<R>, (Vec<R>, Uses, R)>
        requires sound { All R.sound readers.items }
        requires unmoved { All (λ r. R.location r ≡ first_from (R.list r) 0) readers.items }
        requires sound_titles { R.sound titles }
        requires unmoved_titles { R.location titles ≡ first_from (R.list titles) 0 }
        ensures ok { IfOk result (λ s. s ≡ record {
          readers = readers.items;
          uses = uses;
          titles = titles;
          asked = 0;
        }) }
        ensures err { IfErr result (λ e. (e.0 ≡ readers) × (e.1 ≡ uses) × (e.2 ≡ titles)) }
        ensures which { IsOk result ↔ (length readers.items ≡ length uses) }
    {
        if readers.len() != uses.len() {
            return Err((readers, uses, titles));
        }
        Ok(Scorer {
            readers,
            uses,
            titles,
            asked: 0,
        })
    }

    /// How many uses it scores by.
    pub fn len(&self) -> usize
        ensures { result ≡ length self.now.uses }
    {
        self.uses.len()
    }

    /// The last end asked, 0 before the first.
    pub fn asked(&self) -> Loc
        ensures { result ≡ self.now.asked }
    {
        self.asked
    }

    /// The score of the locations from `first` to `end`: over the uses and over the locations of the list of each, 4
    /// where a title ends behind the location, at `end` at most; any other counts 1, or 0 for a use in the title.
    ///
    /// `first` lies above all ends asked before. A reader moves once to reach the range, and once from each location in
    /// it; that of the titles moves once.
    pub fn score<L: Ledger>(&mut self, first: Loc, end: Loc, steps: &mut Steps<L>) -> u64
        requires above { self.old.asked < first }
        requires order { first ≤ end }
        requires top { end < TOP }
        requires fits { 4 * length self.old.uses * (end - first + 1) < 2 ^ 64 }
        ensures score { result ≡ range_score self.old.uses (map R.list self.old.readers)
            (R.list self.old.titles) first end }
        ensures uses { self.new.uses ≡ self.old.uses }
        ensures lists { map R.list self.new.readers ≡ map R.list self.old.readers }
        ensures titles { R.list self.new.titles ≡ R.list self.old.titles }
        ensures asked { self.new.asked ≡ end }
        ensures steps { steps.new + left_of R.left self.new ≤ steps.old + left_of R.left self.old }
    {
        let last = last_to(&mut self.titles, end, steps);
        let score = score_each(
            &mut self.readers,
            self.uses.as_slice(),
            last,
            first,
            end,
            steps,
        );
        self.asked = end;
        score
    }
    /// The least location behind the last end asked that the list of a use has, `TOP` where none has one. A reader moves once at most,
    /// to its first location there.
    pub fn next<L: Ledger>(&mut self, steps: &mut Steps<L>) -> Loc
        requires below { self.old.asked < TOP }
        ensures above { self.old.asked < result }
        ensures least { All (λ list. result ≤ first_from list (self.old.asked + 1)) (map R.list self.old.readers) }
        ensures on { LooksOn R.list R.left self.old self.new steps.old steps.new }
    {
        least_from(&mut self.readers, self.asked + 1, steps)
    }
}
