// A coded list that readers may borrow.
// Length, first and last location are kept as the check found them, so that to ask for them reads nothing.
ghost use Rattle.std.specs.Prelude.{◌≡◌, ℕ, List, length, slice_index, IfOk, IfErr, IsOk};
ghost use Rattle.alta_codec.specs.Rising.{pred_of};
ghost use Rattle.alta_codec.specs.declared.location.TheConstants.{TOP};
ghost use Rattle.alta_postings.specs.Deltas.{decoded_list};
ghost use Rattle.alta_reader.specs.Moves.{IsNewReader};
ghost use Rattle.alta_words.specs.Fault.{IsPostingFault};
ghost use Rattle.alta_words.specs.Held.{IsSoundWord, word_list, word_place, word_left};
ghost use Rattle.alta_words.specs.Word.{IsPosting, HasBounds};

use crate::checking::{Bounds, PostingFault, check};
use crate::word::WordReader;
use alta_codec::{Steps, TOP};
use alta_postings::{Stream, Summary};
use std::marker::Model;
use std::sync::ledger::Ledger;

/// A stream and the summary that belongs to it. Contracts see the list of the stream's locations.
#[derive(Drop)]
pub struct Posting {
    stream: Vec<u8>,
    summary: Vec<u8>,
    rows: usize,
    count: u64,
    first: u64,
    last: u64,
}

impl Model for Posting {
    ghost Value = { List ℕ };

    ghost view = { λ p. decoded_list p.stream.items };

    ghost invariant = { λ p. IsPosting p.stream.items p.summary.items p.rows
        × HasBounds (decoded_list p.stream.items) p.count p.first p.last };
}

impl Posting {
    /// Takes a stream and its summary, each read once; it takes no memory. A fault is `Stream`, with the place of the
    /// stream's own fault, exactly where the stream spells no list; else `Summary`, with the place of the summary's own
    /// fault, exactly where the summary is no table; else `Differ`, exactly where rows and blocks disagree, with the
    /// least number at which the row is not the block, or one of the two is missing. A stream of at most one block
    /// agrees with the empty summary.
    pub fn check(stream: Vec<u8>, summary: Vec<u8>) -> Result<Posting, PostingFault>
        ensures list { IfOk result (λ posting. posting ≡ decoded_list stream.items) }
        ensures agrees { IsOk result → (b : ℕ) × IsPosting stream.items summary.items b }
        ensures never { (b : ℕ) → IsPosting stream.items summary.items b → IsOk result }
        ensures fault { IfErr result (λ fault. IsPostingFault stream.items summary.items fault) }
    {
        let bounds = check(&stream, &summary)?;
        Ok(Posting::of(stream, summary, bounds))
    }

    /// A stream and its summary that were tested, with the bounds that were found. It reads neither.
    pub fn of(stream: Vec<u8>, summary: Vec<u8>, bounds: Bounds) -> Posting
        requires agrees { IsPosting stream.items summary.items bounds.rows }
        requires bounds { HasBounds (decoded_list stream.items) bounds.count bounds.first bounds.last }
        ensures { result ≡ decoded_list stream.items }
    {
        Posting {
            stream,
            summary,
            rows: bounds.rows,
            count: bounds.count,
            first: bounds.first,
            last: bounds.last,
        }
    }

    /// How many locations the list has.
    pub fn list_len(&self) -> u64
        ensures { result ≡ length self.now }
    {
        self.count
    }

    /// The first location, 0 for the empty list.
    pub fn first(&self) -> u64
        ensures { result ≡ slice_index self.now 0 }
    {
        self.first
    }

    /// The last location, 0 for the empty list.
    pub fn last(&self) -> u64
        ensures { result ≡ pred_of self.now TOP }
    {
        self.last
    }

    /// A reader that borrows the bytes and stands at the first location, or at `TOP` where the list is empty. It adds
    /// one step.
    #[inline(always)]
    pub fn reader<'a, L: Ledger>(&'a self, steps: &mut Steps<L>) -> WordReader<'a>
        ensures { IsNewReader IsSoundWord word_list word_list word_place word_left self.now steps.old steps.new result }
    {
        let stream = Stream::of(&self.stream);
        let summary = Summary::of(&self.summary);
        WordReader::new(stream, summary, self.last, steps)
    }
}
