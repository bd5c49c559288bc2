// A stream of locations: opened, and read block by block or whole.
ghost use Rattle.std.specs.Prelude.{◌≡◌, ℕ, ◌+◌, ◌-◌, ◌*◌, ◌<◌, List, length, take, drop, Some, None, IfSome, IfOk, IfErr, IsOk};
ghost use Rattle.alta_codec.specs.declared.location.TheConstants.{TOP};
ghost use Rattle.alta_postings.specs.Deltas.{Spells, fault_from, list_from, first_fault, decoded_list, IsBehind, IsNextOf};

use crate::block::scan_block;
use crate::fault::StreamFault;
use crate::step::{last_location, near_location, next_location};
use alta_codec::TOP;
use std::alloc::{AllocError, Global};
use std::marker::Model;

/// Bytes that spell a list of locations, borrowed, and how many places have eight bytes from there on. Contracts see the bytes.
#[derive(Drop)]
pub struct Stream<'a> {
    bytes: &'a [u8],
    near: usize,
}

impl<'a> Model for Stream<'a> {
    ghost Value = { List ℕ };

    ghost view = { λ s. s.bytes.now };

    ghost invariant = { λ s. Spells s.bytes.now (decoded_list s.bytes.now) × (s.near ≡ length s.bytes.now - 7) };
}

impl<'a> Stream<'a> {
    /// Reads the whole once, and takes no memory. A fault comes exactly where the bytes spell no list, at the first
    /// number that shows it, with the place of that number's first byte: `Cut`, `Long` and `Wide` where it is misspelt,
    /// `Zero` where it is 0, `Top` where it leads to a location at or above `TOP`.
    pub fn open(bytes: &'a [u8]) -> Result<Stream<'a>, StreamFault>
        ensures found { IfOk result (λ stream. (stream ≡ bytes.now) × Spells bytes.now (decoded_list bytes.now)) }
        ensures never { (list : List ℕ) → Spells bytes.now list → IsOk result × (decoded_list bytes.now ≡ list) }
        ensures first { IfErr result (λ fault. first_fault bytes.now ≡ Some fault) }
    {
        let mut at = 0;
        let mut before: u64 = 0;
        'whole: while at < bytes.len() {
            let span = scan_block(bytes, at, before)?;
            at = span.next;
            before = span.last;
        }
        Ok(Stream::of(bytes))
    }

    /// Bytes that are known to spell a list. They are not read.
    pub fn of(bytes: &'a [u8]) -> Stream<'a>
        requires { (list : List ℕ) × Spells bytes.now list }
        ensures { result ≡ bytes.now }
    {
        let near = bytes.len().saturating_sub(7);
        Stream { bytes, near }
    }

    /// The bytes that spell the list.
    pub fn bytes(&self) -> &[u8]
        ensures bytes { result.now ≡ self.now }
        ensures spelled { Spells self.now (decoded_list self.now) }
    {
        self.bytes
    }

    /// The location behind the location `last`, which is spelled at a place, and the place behind it; none behind the last
    /// location. It takes no memory.
    #[inline(always)]
    pub fn next(&self, place: usize, last: u64) -> Option<(u64, usize)>
        requires behind { (i : ℕ) × IsBehind (decoded_list self.now) i place last }
        ensures next { IfSome result (λ r. (i : ℕ) → IsBehind (decoded_list self.now) i place last
            → IsNextOf (decoded_list self.now) i last r.0 r.1) }
        ensures none { result ≡ None → (i : ℕ) → IsBehind (decoded_list self.now) i place last
            → i ≡ length (decoded_list self.now) }
    {
        if place < self.near {
            return Some(near_location(self.bytes, place, last));
        }
        last_location(self.bytes, place, last)
    }

    /// The whole list.
    pub fn locations(&self, alloc: Global) -> Result<Vec<u64>, AllocError>
        ensures { IfOk result (λ list. list.items ≡ decoded_list self.now) }
    {
        read_all(alloc, self.bytes)
    }
}

// The whole list of a stream.
fn read_all(alloc: Global, bytes: &[u8]) -> Result<Vec<u64>, AllocError>
    requires spelled { fault_from 0 0 0 bytes.now ≡ None }
    ensures { IfOk result (λ list. list.items ≡ list_from 0 0 0 bytes.now) }
{
    let mut list = Vec::new(alloc);
    let mut at = 0;
    let mut last: u64 = 0;
    'numbers: while at < bytes.len() {
        let (location, next) = next_location(bytes, at, last);
        list.push(location)?;
        last = location;
        at = next;
    }
    Ok(list)
}
