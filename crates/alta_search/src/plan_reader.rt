// A reader of the ends that a plan finds.
ghost use Rattle.std.specs.Prelude.{◌≡◌, ◌+◌, ◌<◌, ◌≤◌, length, All, IsTrue, IfOk, IfErr};
ghost use Rattle.alta_codec.specs.declared.location.TheConstants.{TOP};
ghost use Rattle.alta_codec.specs.Rising.{first_from, count_from};
ghost use Rattle.alta_docread.specs.Tree.{IsUnmoved};
ghost use Rattle.alta_docread.specs.View.{tree_of};
ghost use Rattle.alta_lead.specs.Moves.{left_of, list_of};
ghost use Rattle.alta_lead.specs.View.{chains_of, all_of};
ghost use Rattle.alta_search.specs.Leads.{IsSoundLed, led_moves, IsSought, IsLedFrom};
ghost use Rattle.alta_search.specs.Walks.{IsOnward, IsStarted, nothing};
ghost use Rattle.alta_search.specs.Ways.{way_view, led_view, IsSoundWay};
ghost use Rattle.alta_search.specs.Words.{IsSoundSingle, single_list, single_place, single_left, reader_list, reader_all, reader_place, reader_left};

use crate::single_reader::SingleReader;
use crate::test_reader::TestReader;
use alta_codec::{Loc, Steps, TOP};
use alta_compound::EndReader;
use alta_docread::{DocReader, Node};
use alta_lead::LeadReader;
use alta_reader::Reader;
use std::marker::Model;
use std::sync::ledger::Ledger;

/// The way that a reader goes.
#[derive(Drop)]
enum Way<'a> {
    /// There is nothing to find.
    Nothing,
    /// By the tree of the plan.
    Tree(DocReader<TestReader<'a>>),
    /// Led by a word of a conjunction.
    Led(LeadReader<SingleReader<'a>>),
}

/// A reader of the ends that a plan finds. Contracts see what it reads and where it stands, and not which way it goes. No
/// move takes memory.
#[derive(Drop)]
pub struct PlanReader<'a> {
    way: Way<'a>,
}

impl<'a> Model for PlanReader<'a> {
    ghost use Rattle.alta_search.specs.Walks.{PlanView};
    ghost use Rattle.alta_search.specs.Ways.{way_view, IsSoundWay};

    ghost Value = { PlanView };

    ghost view = { λ r. way_view r.way };

    ghost invariant = { λ r. IsSoundWay r.way };
}

impl<'a> PlanReader<'a> {
    /// A reader of no ends, which reads no list.
    pub(crate) fn nothing() -> PlanReader<'a>
        ensures { result ≡ nothing }
    {
        PlanReader { way: Way::Nothing }
    }

    /// A reader of the tree, which goes straight to the first end at or above the place. No reader of the tree was moved
    /// before.
    pub(crate) fn by_tree<L: Ledger>(
        node: Node<TestReader<'a>>,
        from: Loc,
        steps: &mut Steps<L>,
    ) -> PlanReader<'a>
        requires unmoved { IsUnmoved (tree_of reader_list reader_all reader_place reader_left node) }
        requires top { from ≤ TOP }
        ensures { IsStarted (tree_of reader_list reader_all reader_place reader_left node.entry) result from
            steps.old steps.new }
    {
        let reader = DocReader::starting_at(node, from.max(1), steps);
        PlanReader {
            way: Way::Tree(reader),
        }
    }

    /// A reader of the ends of the documents that have each word and none of the negated words, led by the word of this
    /// index, which stands at the first end at or above the place. No reader was moved before.
    pub fn by_lead<L: Ledger>(
        ends: SingleReader<'a>,
        words: Vec<SingleReader<'a>>,
        negated: Vec<SingleReader<'a>>,
        lead: usize,
        from: Loc,
        steps: &mut Steps<L>,
    ) -> PlanReader<'a>
        requires ends { IsSoundSingle ends }
        requires words { All IsSoundSingle words.items }
        requires negated { All IsSoundSingle negated.items }
        requires lead { lead < length words.items }
        requires ends_unmoved { single_place ends ≡ first_from (single_list ends) 0 }
        requires words_unmoved { All (λ r. single_place r ≡ first_from (single_list r) 0) words.items }
        requires negated_unmoved { All (λ r. single_place r ≡ first_from (single_list r) 0) negated.items }
        requires top { from ≤ TOP }
        ensures { IsLedFrom ends.entry words.entry.items negated.entry.items lead result from steps.old steps.new }
    {
        let mut reader = LeadReader::new(EndReader::new(ends), words, negated, lead, steps);
        seek_on(&mut reader, from, steps);
        PlanReader {
            way: Way::Led(reader),
        }
    }

    /// The reader of the ends of a conjunction, where a word leads it, and this reader again where none does.
    pub fn into_led(self) -> Result<LeadReader<SingleReader<'a>>, PlanReader<'a>>
        ensures sound { IfOk result IsSoundLed }
        ensures led { IfOk result (λ r. self.entry ≡ led_view r) }
        ensures other { IfErr result (λ r. r ≡ self.entry) }
    {
        match self.way {
            Way::Led(reader) => Ok(reader),
            way => Err(PlanReader { way }),
        }
    }

    /// Where it stands. Where it has passed no element at or above there, the elements from there on are left.
    pub fn loc(&self) -> Loc
        ensures location { result ≡ self.now.place }
        ensures unpassed { IsTrue self.now.one → result < TOP → count_from self.now.all result ≤ self.now.left }
    {
        place_of(&self.way)
    }

    /// Goes to the next end, or to `TOP` past the last.
    pub fn next<L: Ledger>(&mut self, steps: &mut Steps<L>)
        requires below { self.old.place < TOP }
        ensures onward { IsOnward self.old self.new steps.old steps.new }
        ensures location { self.new.place ≡ first_from self.old.list (self.old.place + 1) }
        ensures falls { self.new.left < self.old.left }
    {
        step(&mut self.way, steps);
    }
}

/// Where the way stands.
fn place_of(way: &Way<'_>) -> Loc
    requires { IsSoundWay way.now }
    ensures location { result ≡ (way_view way.now).place }
    ensures unpassed { IsTrue (way_view way.now).one → result < TOP
        → count_from (way_view way.now).all result ≤ (way_view way.now).left }
{
    match way {
        Way::Nothing => TOP,
        Way::Tree(reader) => reader.loc(),
        Way::Led(reader) => reader.loc(),
    }
}

/// Goes to the next end.
fn step<L: Ledger>(way: &mut Way<'_>, steps: &mut Steps<L>)
    requires sound { IsSoundWay way.old }
    requires below { (way_view way.old).place < TOP }
    ensures sound { IsSoundWay way.new }
    ensures list { (way_view way.new).list ≡ (way_view way.old).list }
    ensures all { (way_view way.new).all ≡ (way_view way.old).all }
    ensures location { (way_view way.new).place ≡ first_from (way_view way.old).list ((way_view way.old).place + 1) }
    ensures falls { (way_view way.new).left < (way_view way.old).left }
    ensures steps { steps.new + (way_view way.new).left ≤ steps.old + (way_view way.old).left }
    ensures moves { steps.new + (way_view way.new).moves ≤ steps.old + (way_view way.old).moves }
    ensures one { IsTrue (way_view way.old).one → IsTrue (way_view way.new).one }
{
    match way {
        Way::Nothing => {}
        Way::Tree(reader) => reader.next(steps),
        Way::Led(reader) => next_led(reader, steps),
    }
}

/// Goes to the next end, led by a word.
fn next_led<L: Ledger>(reader: &mut LeadReader<SingleReader<'_>>, steps: &mut Steps<L>)
    requires sound { IsSoundLed reader.old }
    requires below { reader.old.at < TOP }
    ensures sound { IsSoundLed reader.new }
    ensures list { list_of single_list (chains_of reader.new) ≡ list_of single_list (chains_of reader.old) }
    ensures all { all_of single_list (chains_of reader.new) ≡ all_of single_list (chains_of reader.old) }
    ensures location { reader.new.at ≡ first_from (list_of single_list (chains_of reader.old)) (reader.old.at + 1) }
    ensures falls { left_of single_left (chains_of reader.new) < left_of single_left (chains_of reader.old) }
    ensures steps { steps.new + left_of single_left (chains_of reader.new)
        ≤ steps.old + left_of single_left (chains_of reader.old) }
    ensures moves { steps.new + led_moves reader.new ≤ steps.old + led_moves reader.old }
{
    reader.next(steps);
}

/// Goes to the first end at or above a place, where the reader stands below it.
fn seek_on<L: Ledger>(reader: &mut LeadReader<SingleReader<'_>>, to: Loc, steps: &mut Steps<L>)
    requires sound { IsSoundLed reader.old }
    requires top { to ≤ TOP }
    ensures { IsSought reader.old reader.new to steps.old steps.new }
{
    if reader.loc() < to {
        reader.seek(to, steps);
    }
}
