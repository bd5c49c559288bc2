// The stream of a list, each number of which is decoded once.
ghost use Rattle.std.specs.Prelude.{◌≡◌, ◌++◌, ◌∷◌, [], ◌%◌, ◌<◌, length, IfOk, IfErr, OnOk};
ghost use Rattle.alta_postings.specs.Deltas.{HasPlaces, Spells};
ghost use Rattle.alta_level.specs.Decoded.{IsDecodeFault};

use alta_codec::Loc;
use alta_postings::{mark, read_location};
use std::alloc::AllocError;

/// Why a stream was not decoded.
#[derive(Drop)]
pub enum DecodeFault {
    /// Memory is wanting.
    Memory,
    /// The stream spells no list, as the number at this place shows.
    Stream(usize),
}

// Keeps the location that is spelled at a place of a stream, and the place itself if a block begins there.
fn keep(
    locations: &mut Vec<Loc>,
    places: &mut Vec<u64>,
    location: Loc,
    at: usize,
) -> Result<(), AllocError>
    ensures locations { OnOk result (locations.new.items ≡ locations.old.items ++ location ∷ []) }
    ensures first { length locations.old.items % 64 ≡ 0 → OnOk result (places.new.items ≡ places.old.items ++ at ∷ []) }
    ensures later { 0 < length locations.old.items % 64 → OnOk result (places.new.items ≡ places.old.items) }
{
    let i = locations.len();
    mark(places, i, at)?;
    locations.push(location)?;
    Ok(())
}

/// Leaves the locations of a stream in `locations`, and in `places` where each block of 64 of them begins in the stream,
/// the last of which may be shorter; what the two held goes. Each number is read once. A fault of the stream is the first
/// number that shows that it spells no list.
pub fn decode(
    locations: &mut Vec<Loc>,
    places: &mut Vec<u64>,
    stream: &[u8],
) -> Result<(), DecodeFault>
    ensures spelled { IfOk result (λ x. Spells stream.now locations.new.items) }
    ensures places { IfOk result (λ x. HasPlaces locations.new.items (length locations.new.items) places.new.items) }
    ensures fault { IfErr result (IsDecodeFault stream.now) }
{
    locations.clear();
    places.clear();
    let mut at = 0;
    let mut last: Loc = 0;
    'numbers: while at < stream.len() {
        match read_location(stream, at, last) {
            Ok((location, next)) => {
                let Ok(()) = keep(locations, places, location, at) else {
                    return Err(DecodeFault::Memory);
                };
                last = location;
                at = next;
            }
            Err(fault) => return Err(DecodeFault::Stream(fault.place)),
        }
    }
    Ok(())
}
