// A reader of a coded list, which reads number after number.
// Blocks of 64 that were read ahead made a reader half a kilobyte large, and took a quarter to a third of a walk. The last location
// of the list is kept, since a chain and a union ask for it several times a move.
ghost use Rattle.std.specs.Prelude.{◌≡◌, refl, ℕ, ◌+◌, ◌*◌, ◌<◌, ◌≤◌};
ghost use Rattle.alta_codec.specs.Rising.{first_from, pred_of};
ghost use Rattle.alta_codec.specs.declared.location.TheConstants.{TOP};
ghost use Rattle.alta_postings.specs.Deltas.{IsBehind, decoded_list};
ghost use Rattle.alta_postings.specs.Table.{field_at};
ghost use Rattle.alta_reader.specs.Moves.{IsNewReader};
ghost use Rattle.alta_words.specs.Held.{IsSoundWord, word_list, word_place, word_left, word_rises, word_stands};
ghost use Rattle.alta_words.specs.Leaps.{Leaps};
ghost use Rattle.alta_words.specs.Word.{IsNear, IsPosting, ReachesTo};

use crate::standing::{Standing, behind, first, first_at};
use alta_codec::{Loc, Steps, TOP};
use alta_postings::{Stream, Summary};
use alta_reader::{BackReader, Reader};
use std::sync::ledger::Ledger;

/// A reader of a coded list, whose bytes it borrows. It keeps where it stands, the row of the summary that it looked at last
/// and the last location of that row's block, and the last location of the list. No block is decoded ahead: a move reads the
/// numbers that it passes, from where the reader stands or from the start of a later block.
#[derive(Drop)]
pub struct WordReader<'a> {
    stream: Stream<'a>,
    summary: Summary<'a>,
    standing: Standing,
    row: usize,
    reach: Loc,
    end: Loc,
}

/// The last location of the first row's block; of the list, where there are no rows.
fn first_reach(summary: &Summary<'_>, end: Loc) -> Loc
    ensures { ReachesTo summary.now.bytes summary.now.count 0 result end }
{
    if summary.rows() == 0 {
        return end;
    }
    summary.last(0)
}

impl<'a> WordReader<'a> {
    /// A reader at the first location of a list, whose last one is `end`, 0 where there is none. It adds one step.
    #[inline(always)]
    pub(crate) fn new<L: Ledger>(
        stream: Stream<'a>,
        summary: Summary<'a>,
        end: Loc,
        steps: &mut Steps<L>,
    ) -> WordReader<'a>
        requires posting { IsPosting stream summary.bytes summary.count }
        requires end { end ≡ pred_of (decoded_list stream) TOP }
        ensures { IsNewReader IsSoundWord word_list word_list word_place word_left
            (decoded_list stream.entry) steps.old steps.new result }
    {
        steps.tick();
        let reach = first_reach(&summary, end);
        let standing = first(&stream);
        WordReader {
            stream,
            summary,
            standing,
            row: 0,
            reach,
            end,
        }
    }

    /// The greatest location of the list, 0 where it is empty.
    pub fn last(&self) -> Loc
        requires { IsSoundWord self.now }
        ensures { result ≡ pred_of (word_list self.now) TOP }
    {
        self.end
    }

    /// From where the first location at or above `to` is to be read, which the block of a row has: the start of that block, or
    /// where the reader stands, if that is behind it. The place, and the location before it. From there one block is read at most.
    fn way_to(&self, row: usize, to: Loc) -> (usize, Loc)
        requires sound { IsSoundWord self.now }
        requires above { word_place self.now < to }
        requires top { to ≤ TOP }
        requires within { row < self.now.summary.count }
        requires reached { to ≤ field_at self.now.summary.bytes (3 * row + 1) }
        requires passed { (i : ℕ) → i < row → field_at self.now.summary.bytes (3 * i + 1) < to }
        ensures behind { (i : ℕ) × IsBehind (word_list self.now) i result.0 result.1 }
        ensures near { (i : ℕ) → IsBehind (word_list self.now) i result.0 result.1 → IsNear (word_list self.now) i to }
        ensures low { result.1 < to }
    {
        let place = self.summary.row(row).place as usize;
        if place <= self.standing.place {
            return (self.standing.place, self.standing.at);
        }
        (place, self.summary.last(row - 1))
    }

    /// Goes on to the first location at or above `to`, which lies behind the block of the row that was looked at last.
    #[inline(never)]
    fn go_far(&mut self, to: Loc)
        requires sound { IsSoundWord self.old }
        requires above { word_place self.old < to }
        requires top { to ≤ TOP }
        requires far { self.old.reach < to }
        ensures sound { IsSoundWord self.new }
        ensures list { word_list self.new ≡ word_list self.old }
        ensures place { word_place self.new ≡ first_from (word_list self.old) to }
    {
        if self.end < to {
            self.standing = Standing {
                place: self.standing.place,
                before: self.end,
                at: TOP,
            };
            return;
        }
        let row = self.summary.find_after(self.row, to);
        let (place, last) = self.way_to(row, to);
        self.row = row;
        self.reach = self.summary.last(row);
        self.standing = first_at(&self.stream, place, last, to);
    }

    /// Goes on to the first location at or above `to`, which mostly is in the block of the row that was looked at last.
    #[inline(always)]
    fn go_seek(&mut self, to: Loc)
        requires sound { IsSoundWord self.old }
        requires above { word_place self.old < to }
        requires top { to ≤ TOP }
        ensures sound { IsSoundWord self.new }
        ensures list { word_list self.new ≡ word_list self.old }
        ensures place { word_place self.new ≡ first_from (word_list self.old) to }
    {
        if self.reach < to {
            self.go_far(to);
            return;
        }
        self.standing = first_at(&self.stream, self.standing.place, self.standing.at, to);
    }
}

impl<'a> Reader for WordReader<'a> {
    ghost sound = { IsSoundWord };

    ghost list = { word_list };

    ghost location = { word_place };

    ghost all = { word_list };

    ghost left = { word_left };

    ghost cost = { λ s. 1 };

    fn loc(&self) -> Loc {
        self.standing.at
    }

    /// Goes to the next location, or to `TOP` past the last. It adds exactly one step, and reads one number.
    #[inline(always)]
    fn next<L: Ledger>(&mut self, steps: &mut Steps<L>)
        requires sound { IsSoundWord self.old }
        requires below { word_place self.old < TOP }
        ensures { Leaps IsSoundWord word_list word_place self.old self.new
            (first_from (word_list self.old) (word_place self.old + 1)) steps.old steps.new }
    {
        steps.tick();
        self.standing = behind(&self.stream, self.standing);
    }

    /// Goes to the least location at or above `to`, or to `TOP` past the last. It adds exactly one step. Where the row that it
    /// looked at last does not reach `to`, it finds the one that does in the summary: the next one, or by halving groups and then
    /// rows. It reads numbers of that row's block alone.
    #[inline(always)]
    fn seek<L: Ledger>(&mut self, to: Loc, steps: &mut Steps<L>)
        requires sound { IsSoundWord self.old }
        requires above { word_place self.old < to }
        requires top { to ≤ TOP }
        ensures { Leaps IsSoundWord word_list word_place self.old self.new
            (first_from (word_list self.old) to) steps.old steps.new }
    {
        steps.tick();
        self.go_seek(to);
    }

    ghost rises = { word_rises };

    ghost stands = { word_stands };
}

impl<'a> BackReader for WordReader<'a> {
    fn prev(&self) -> Loc {
        self.standing.before
    }

    ghost members = { λ s h x. (λ m. m, λ m. m) };

    ghost left_is = { λ s h. refl };
}
