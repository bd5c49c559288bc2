// Where a reader of a coded list stands, and how it goes on.
ghost use Rattle.std.specs.Prelude.{◌≡◌, ℕ, ◌+◌, ◌<◌, ◌≤◌};
ghost use Rattle.alta_codec.specs.Rising.{IsRising, first_from, pred_of};
ghost use Rattle.alta_codec.specs.declared.location.TheConstants.{TOP};
ghost use Rattle.alta_postings.specs.Deltas.{IsBehind, decoded_list};
ghost use Rattle.alta_words.specs.Word.{IsNear, StandsAt};

use alta_codec::{Loc, TOP};
use alta_postings::Stream;

/// Where a reader stands: at a location, or at `TOP` behind the last.
#[derive(Clone, Copy)]
pub(crate) struct Standing {
    /// The place behind the number of the location.
    pub(crate) place: usize,
    /// The location before, 0 where there is none.
    pub(crate) before: Loc,
    /// The location.
    pub(crate) at: Loc,
}

/// The first location of a list.
#[inline(always)]
pub(crate) fn first(stream: &Stream<'_>) -> Standing
    ensures { StandsAt (decoded_list stream.now) 0 result }
{
    match stream.next(0, 0) {
        Some((at, place)) => Standing {
            place,
            before: 0,
            at,
        },
        None => Standing {
            place: 0,
            before: 0,
            at: TOP,
        },
    }
}

/// The location behind the one at which a reader stands.
#[inline(always)]
pub(crate) fn behind(stream: &Stream<'_>, from: Standing) -> Standing
    requires stands { (i : ℕ) × StandsAt (decoded_list stream.now) i from }
    requires below { from.at < TOP }
    ensures { (i : ℕ) → StandsAt (decoded_list stream.now) i from → StandsAt (decoded_list stream.now) (i + 1) result }
{
    match stream.next(from.place, from.at) {
        Some((at, place)) => Standing {
            place,
            before: from.at,
            at,
        },
        None => Standing {
            place: from.place,
            before: from.at,
            at: TOP,
        },
    }
}

/// The first location at or above `to`, which the list has, behind a location below it whose number ends at a place. It is one of
/// the next 64, and no number behind it is read: this is the one loop of a reader, and it reads no more than a block has.
#[inline(always)]
pub(crate) fn first_at(stream: &Stream<'_>, place: usize, last: Loc, to: Loc) -> Standing
    requires rising { IsRising (decoded_list stream.now) }
    requires behind { (i : ℕ) × IsBehind (decoded_list stream.now) i place last }
    requires near { (i : ℕ) → IsBehind (decoded_list stream.now) i place last → IsNear (decoded_list stream.now) i to }
    requires low { last < to }
    requires top { to ≤ TOP }
    requires there { to ≤ pred_of (decoded_list stream.now) TOP }
    ensures stands { (i : ℕ) × StandsAt (decoded_list stream.now) i result }
    ensures at { result.at ≡ first_from (decoded_list stream.now) to }
{
    let mut standing = Standing {
        place,
        before: last,
        at: last,
    };
    'numbers: while standing.at < to {
        match stream.next(standing.place, standing.at) {
            Some((at, place)) => {
                standing = Standing {
                    place,
                    before: standing.at,
                    at,
                }
            }
            None => return standing,
        }
    }
    standing
}
