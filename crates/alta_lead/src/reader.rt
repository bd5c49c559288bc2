// A reader of the documents of a conjunction.
ghost use Rattle.std.specs.Prelude.{◌≡◌, ℕ, ◌+◌, ◌*◌, ◌<◌, ◌≤◌, ◌++◌, ◌↔◌, [], map, length, slice_index_or, All, Contains};
ghost use Rattle.std.specs.List.{concat};
ghost use Rattle.alta_codec.specs.Rising.{IsPlace, pred_of, first_from, count_from};
ghost use Rattle.alta_codec.specs.declared.location.TheConstants.{TOP};
ghost use Rattle.alta_lead.specs.Having.{ends_having, IsAnswer};
ghost use Rattle.alta_lead.specs.HavingLaws.{having-rises};
ghost use Rattle.alta_lead.specs.Moves.{left_of, list_of, rest_of, IsUnpassed, MovesEach};
ghost use Rattle.alta_lead.specs.Rounds.{IsGone};
ghost use Rattle.alta_lead.specs.View.{chains_of, IsSoundLead, IsSame, IsOn};

use crate::rounds::go;
use alta_codec::{Loc, Steps, TOP};
use alta_compound::EndReader;
use alta_reader::{BackReader, Reader};
use std::sync::ledger::Ledger;

/// A reader of the ends of the documents that have each of some words and none of some negated words. One of the words
/// leads: only documents that have it are looked at, so a search costs about what that word has. Neither its making nor
/// a move takes memory.
#[derive(Drop)]
pub struct LeadReader<R: BackReader> {
    ends: EndReader<R>,
    words: Vec<R>,
    negated: Vec<R>,
    /// Which of the words leads.
    lead: usize,
    /// The end where it stands.
    at: Loc,
}

impl<R: BackReader> LeadReader<R> {
    /// The reader of the ends of the documents that have each word and none of the negated words, which stands at the
    /// first. `lead` is the number of the word that leads, best the one with the fewest locations. No reader was moved.
    /// Over the whole life of the reader each of its readers is moved at most twice for each location of the leading word,
    /// and twice more: clause `moves`, and that of `next` and `seek`.
    pub fn new<L: Ledger>(
        ends: EndReader<R>,
        words: Vec<R>,
        negated: Vec<R>,
        lead: usize,
        steps: &mut Steps<L>,
    ) -> LeadReader<R>
        requires ends { R.sound ends.inner }
        requires words { All R.sound words.items }
        requires negated { All R.sound negated.items }
        requires lead { lead < length words.items }
        requires ends_unmoved { R.location ends.inner ≡ first_from (R.list ends.inner) 0 }
        requires words_unmoved { All (λ r. R.location r ≡ first_from (R.list r) 0) words.items }
        requires negated_unmoved { All (λ r. R.location r ≡ first_from (R.list r) 0) negated.items }
        ensures sound { ⟦<LeadReader<R> as Reader>⟧.sound result }
        ensures same_ends { R.list result.ends.inner ≡ R.list ends.inner }
        ensures same_words { map R.list result.words.items ≡ map R.list words.items }
        ensures same_negated { map R.list result.negated.items ≡ map R.list negated.items }
        ensures list { ⟦<LeadReader<R> as Reader>⟧.list result
            ≡ ends_having (R.list ends.inner) (map R.list words.items) (map R.list negated.items) }
        ensures answers { (e : ℕ) → Contains (⟦<LeadReader<R> as Reader>⟧.list result) e
            ↔ IsAnswer (R.list ends.inner) (map R.list words.items) (map R.list negated.items) e }
        ensures all { ⟦<LeadReader<R> as Reader>⟧.all result ≡ R.all ends.inner ++ concat (map R.all words.items)
            ++ concat (map R.all negated.items) }
        ensures location { ⟦<LeadReader<R> as Reader>⟧.location result
            ≡ first_from (⟦<LeadReader<R> as Reader>⟧.list result) 1 }
        ensures left { ⟦<LeadReader<R> as Reader>⟧.left result
            ≤ left_of R.left (record { ends = ends.inner; words = words.items; negated = negated.items }) }
        ensures steps { steps.new + ⟦<LeadReader<R> as Reader>⟧.left result
            ≤ steps.old + left_of R.left (record { ends = ends.inner; words = words.items; negated = negated.items }) }
        ensures leads { result.lead ≡ lead }
        ensures moves { MovesEach R.list R.cost (chains_of result)
            (2 * length (slice_index_or (map R.list words.items) lead []) + 2)
            (2 * rest_of R.list (chains_of result) lead (⟦<LeadReader<R> as Reader>⟧.location result))
            steps.old steps.new }
    {
        let mut reader = LeadReader {
            ends,
            words,
            negated,
            lead,
            at: 0,
        };
        reader.bring(1, steps);
        reader
    }

    /// The readers of the ends, of the words and of the negated words, and which of the words leads.
    pub fn into_parts(self) -> (EndReader<R>, Vec<R>, Vec<R>, usize)
        ensures ends { result.0 ≡ self.ends }
        ensures words { result.1 ≡ self.words }
        ensures negated { result.2 ≡ self.negated }
        ensures lead { result.3 ≡ self.lead }
    {
        (self.ends, self.words, self.negated, self.lead)
    }

    /// Brings its readers to the first end of its list at or above `to`, where none has passed an element of that document.
    fn bring<L: Ledger>(&mut self, to: Loc, steps: &mut Steps<L>)
        requires ends { R.sound self.old.ends.inner }
        requires words { All R.sound self.old.words.items }
        requires negated { All R.sound self.old.negated.items }
        requires lead { self.old.lead < length self.old.words.items }
        requires some { 0 < to }
        requires top { to ≤ TOP }
        requires unpassed { IsUnpassed R.list R.location (chains_of self.old)
            (pred_of (R.list self.old.ends.inner) to + 1) }
        ensures lead { self.new.lead ≡ self.old.lead }
        ensures gone { IsGone R.sound R.list R.all R.location R.left R.cost self.old.lead (chains_of self.old)
            (chains_of self.new) to self.new.at steps.old steps.new }
    {
        self.at = go(
            &mut self.ends,
            &mut self.words,
            &mut self.negated,
            self.lead,
            to,
            steps,
        );
    }

    /// Goes on to the first end of its list at or above `to`.
    fn go_on<L: Ledger>(&mut self, to: Loc, steps: &mut Steps<L>)
        requires sound { IsSoundLead R.sound R.list R.location self.old }
        requires above { self.old.at < to }
        requires top { to ≤ TOP }
        ensures { IsOn R.sound R.list R.all R.location R.left R.cost self.old self.new to steps.old steps.new }
    {
        self.bring(to, steps);
    }
}

impl<R: BackReader> Reader for LeadReader<R> {
    ghost sound = { λ s. IsSoundLead R.sound R.list R.location s };

    ghost list = { λ s. list_of R.list (chains_of s) };

    ghost location = { λ s. s.at };

    ghost all = { λ s. R.all s.ends.inner ++ concat (map R.all s.words.items) ++ concat (map R.all s.negated.items) };

    ghost left = { λ s. left_of R.left (chains_of s) };

    ghost cost = { λ s. left_of R.left (chains_of s) };

    /// Where it stands. Below `TOP` none of its readers has passed an element of its list at or above there.
    fn loc(&self) -> Loc
        requires { ⟦<LeadReader<R> as Reader>⟧.sound self.now }
        ensures location { result ≡ ⟦<LeadReader<R> as Reader>⟧.location self.now }
        ensures place { IsPlace (⟦<LeadReader<R> as Reader>⟧.list self.now) result }
        ensures unpassed { result < TOP → IsUnpassed R.list R.location (chains_of self.now) result }
        ensures counted { result < TOP → count_from (⟦<LeadReader<R> as Reader>⟧.all self.now) result
            ≤ ⟦<LeadReader<R> as Reader>⟧.left self.now }
    {
        self.at
    }

    /// Goes to the next end, or to `TOP` past the last. Each of its readers moves at most twice for each location of the
    /// leading word that is passed.
    fn next<L: Ledger>(&mut self, steps: &mut Steps<L>)
        requires sound { ⟦<LeadReader<R> as Reader>⟧.sound self.old }
        requires below { ⟦<LeadReader<R> as Reader>⟧.location self.old < TOP }
        ensures sound { ⟦<LeadReader<R> as Reader>⟧.sound self.new }
        ensures list { ⟦<LeadReader<R> as Reader>⟧.list self.new ≡ ⟦<LeadReader<R> as Reader>⟧.list self.old }
        ensures all { ⟦<LeadReader<R> as Reader>⟧.all self.new ≡ ⟦<LeadReader<R> as Reader>⟧.all self.old }
        ensures location { ⟦<LeadReader<R> as Reader>⟧.location self.new
            ≡ first_from (⟦<LeadReader<R> as Reader>⟧.list self.old)
            (⟦<LeadReader<R> as Reader>⟧.location self.old + 1) }
        ensures falls { ⟦<LeadReader<R> as Reader>⟧.left self.new < ⟦<LeadReader<R> as Reader>⟧.left self.old }
        ensures steps { steps.new + ⟦<LeadReader<R> as Reader>⟧.left self.new
            ≤ steps.old + ⟦<LeadReader<R> as Reader>⟧.left self.old }
        ensures cost { steps.new ≤ steps.old + ⟦<LeadReader<R> as Reader>⟧.cost self.old }
        ensures same { IsSame R.list self.old self.new }
        ensures moves { MovesEach R.list R.cost (chains_of self.old)
            (2 * rest_of R.list (chains_of self.old) self.old.lead self.old.at)
            (2 * rest_of R.list (chains_of self.old) self.old.lead self.new.at) steps.old steps.new }
    {
        let to = self.at + 1;
        self.go_on(to, steps);
    }

    /// Goes to the first end at or above `to`, or to `TOP` past the last. Each of its readers moves at most twice for each
    /// location of the leading word that is passed.
    fn seek<L: Ledger>(&mut self, to: Loc, steps: &mut Steps<L>)
        requires sound { ⟦<LeadReader<R> as Reader>⟧.sound self.old }
        requires above { ⟦<LeadReader<R> as Reader>⟧.location self.old < to }
        requires top { to ≤ TOP }
        ensures sound { ⟦<LeadReader<R> as Reader>⟧.sound self.new }
        ensures list { ⟦<LeadReader<R> as Reader>⟧.list self.new ≡ ⟦<LeadReader<R> as Reader>⟧.list self.old }
        ensures all { ⟦<LeadReader<R> as Reader>⟧.all self.new ≡ ⟦<LeadReader<R> as Reader>⟧.all self.old }
        ensures location { ⟦<LeadReader<R> as Reader>⟧.location self.new
            ≡ first_from (⟦<LeadReader<R> as Reader>⟧.list self.old) to }
        ensures falls { ⟦<LeadReader<R> as Reader>⟧.left self.new < ⟦<LeadReader<R> as Reader>⟧.left self.old }
        ensures steps { steps.new + ⟦<LeadReader<R> as Reader>⟧.left self.new
            ≤ steps.old + ⟦<LeadReader<R> as Reader>⟧.left self.old }
        ensures cost { steps.new ≤ steps.old + ⟦<LeadReader<R> as Reader>⟧.cost self.old }
        ensures same { IsSame R.list self.old self.new }
        ensures moves { MovesEach R.list R.cost (chains_of self.old)
            (2 * rest_of R.list (chains_of self.old) self.old.lead self.old.at)
            (2 * rest_of R.list (chains_of self.old) self.old.lead self.new.at) steps.old steps.new }
    {
        self.go_on(to, steps);
    }

    ghost rises = { λ s h. having-rises (R.list s.ends.inner) (map R.list s.words.items)
        (map R.list s.negated.items) h.rising };

    ghost stands = { λ s h. h.stands };
}
