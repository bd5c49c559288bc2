// A list of locations as a stream, with the place of each block.
ghost use Rattle.std.specs.Prelude.{◌≡◌, ℕ, ◌++◌, ◌∷◌, [], ◌%◌, ◌<◌, length, IfOk, OnOk};
ghost use Rattle.alta_codec.specs.Rising.{IsRising};
ghost use Rattle.alta_postings.specs.Deltas.{Spells, stream_bytes, HasPlaces};

use crate::places::Places;
use alta_codec::{Bytes, put_number};
use std::alloc::{AllocError, Global};

/// A stream, and the place in it of the first number of each block of 64 locations.
#[derive(Drop)]
pub struct Coded {
    /// The bytes that spell the list.
    pub bytes: Bytes,
    /// Where each block begins, in bytes from the start; the last block may be shorter.
    pub places: Places,
}

/// The stream of a list that rises strictly, from 1 to below `TOP`: the LEB128 spelling of the first location and of
/// each difference from the one before.
pub fn encode(alloc: Global, locs: &[u64]) -> Result<Coded, AllocError>
    requires { IsRising locs.now }
    ensures bytes { IfOk result (λ coded. Spells coded.bytes locs.now) }
    ensures places { IfOk result (λ coded. HasPlaces locs.now (length locs.now) coded.places) }
{
    let mut bytes = Vec::new(alloc);
    let mut places = Vec::new(alloc);
    put_stream(&mut bytes, &mut places, locs)?;
    Ok(Coded {
        bytes: Bytes::from_vec(bytes),
        places: Places::from_vec(places),
    })
}

// Appends the stream of a list that rises strictly, from 1 to below `TOP`, and leaves in `places` where each block
// begins, in bytes from where the stream does. It makes one pass over the locations. After `Err` what was appended is
// not said.
fn put_stream(out: &mut Vec<u8>, places: &mut Vec<u64>, locs: &[u64]) -> Result<(), AllocError>
    requires { IsRising locs.now }
    ensures bytes { OnOk result (out.new.items ≡ out.old.items ++ stream_bytes 0 locs.now) }
    ensures places { OnOk result (HasPlaces locs.now (length locs.now) places.new.items) }
{
    places.clear();
    let start = out.len();
    let mut before: u64 = 0;
    for (i, loc) in locs.iter().enumerate() {
        mark(places, i, out.len() - start)?;
        put_number(out, *loc - before)?;
        before = *loc;
    }
    Ok(())
}

/// Notes the place of location `i` of a list in its stream, if a block begins with it.
pub fn mark(places: &mut Vec<u64>, i: usize, at: usize) -> Result<(), AllocError>
    ensures first { i % 64 ≡ 0 → OnOk result (places.new.items ≡ places.old.items ++ at ∷ []) }
    ensures later { 0 < i % 64 → OnOk result (places.new.items ≡ places.old.items) }
{
    if i % 64 == 0 {
        places.push(at as u64)?;
    }
    Ok(())
}
