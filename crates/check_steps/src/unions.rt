// How many steps a seek of a union adds, in figures.
ghost use Rattle.std.specs.Prelude.{◌+◌, ◌≤◌};
ghost use Rattle.alta_codec.specs.Rising.{IsRising};
ghost use Rattle.alta_codec.specs.declared.location.TheConstants.{TOP};

use alta_codec::{Loc, Steps};
use alta_compound::AnyReader;
use alta_reader::Reader;
use alta_words::PlainReader;
use std::alloc::{AllocError, Global};
use std::sync::ledger::Ledger;

/// Where a reader stands once it went on to a place.
fn after_seek<R: Reader, L: Ledger>(reader: &mut R, to: Loc, steps: &mut Steps<L>) -> Loc
    requires sound { R.sound reader.old }
    requires top { to ≤ TOP }
    ensures sound { R.sound reader.new }
    ensures cost { steps.new ≤ steps.old + R.cost reader.old }
{
    if reader.loc() < to {
        reader.seek(to, steps);
    }
    reader.loc()
}

/// The first location of two lists at or above a place, by a seek of their union. With the making of the two readers it adds at most
/// four steps, however long the lists are.
pub fn first_of_two<L: Ledger>(
    alloc: Global,
    first: &[Loc],
    second: &[Loc],
    to: Loc,
    steps: &mut Steps<L>,
) -> Result<Loc, AllocError>
    requires first { IsRising first.now }
    requires second { IsRising second.now }
    requires top { to ≤ TOP }
    ensures { steps.new ≤ steps.old + 4 }
{
    let mut readers = Vec::new(alloc);
    readers.push(PlainReader::new(first, steps))?;
    readers.push(PlainReader::new(second, steps))?;
    let mut any = AnyReader::new(readers);
    let place = after_seek(&mut any, to, steps);
    Ok(place)
}
