// A table of names.
ghost use Rattle.std.specs.HashMap.{get};
ghost use Rattle.std.specs.Map.{update};
ghost use Rattle.std.specs.Prelude.{◌≡◌, ◌≢◌, ℕ, List, Some, None, OnOk, nat_eq};
ghost use Rattle.std.specs.Str.{bytes_eq};
ghost use Rattle.alta_names.specs.Names.{Fits, Numbers, likely_of, other_of};

use crate::hash::hash_of;
use std::alloc::{AllocError, Global};
use std::collections::HashMap;

// The greatest number that stands beside a hash, in four bytes.
const LAST_SHORT: u64 = 4_294_967_295;

/// The numbers of documents by the hashes of their names, four bytes each. A name whose hash another one has, or whose number is wider,
/// stands in a map of its own, by its text. The names of all others are nowhere in the table: whoever asks it looks at the name of the
/// number that it answers.
#[derive(Drop)]
pub struct NameTable {
    // A number for each hash.
    firsts: HashMap<u32, u32>,
    // The numbers of names whose hash had a number when they came, and wider numbers.
    others: HashMap<String, u64>,
}

impl NameTable {
    /// No name.
    pub fn new(alloc: Global) -> NameTable
        ensures { Fits result (λ name. None) }
    {
        NameTable {
            firsts: HashMap::new(alloc),
            others: HashMap::new(alloc),
        }
    }

    /// Makes room for so many names more. Fails for want of memory alone.
    pub fn reserve(&mut self, count: usize) -> Result<(), AllocError>
        ensures { (numbers : Numbers) → Fits self.old numbers → Fits self.new numbers }
    {
        self.firsts.reserve(count)
    }

    /// The number of a document whose name has the hash of this one, if there is one. It may have another name.
    pub fn likely(&self, name: &str) -> Option<u64>
        ensures { result ≡ likely_of self.now name.now }
    {
        let number = self.firsts.get(&hash_of(name))?;
        Some(u64::from(*number))
    }

    /// The number of a name among those that are kept by their texts.
    pub fn other(&self, name: &str) -> Option<u64>
        ensures { result ≡ other_of self.now name.now }
    {
        self.others.get(name).copied()
    }

    /// Notes the number of a name that has none. Fails for want of memory alone: then the names are as they were.
    pub fn note(&mut self, alloc: Global, name: &str, number: u64) -> Result<(), AllocError>
        ensures { (numbers : Numbers) → Fits self.old numbers → numbers name.now ≡ None
            → OnOk result (Fits self.new (update bytes_eq numbers name.now (Some number))) }
    {
        let hash = hash_of(name);
        if number > LAST_SHORT || self.firsts.contains_key(&hash) {
            let key = String::from_str(alloc, name)?;
            self.others.insert(key, number)?;
        } else {
            self.firsts.insert(hash, number as u32)?;
        }
        Ok(())
    }

    /// Forgets a name, by its number, which no other name has.
    pub fn forget(&mut self, name: &str, number: u64)
        ensures { (numbers : Numbers) → Fits self.old numbers → numbers name.now ≡ Some number
            → ((other : List ℕ) → numbers other ≡ Some number → name.now ≡ other)
            → Fits self.new (update bytes_eq numbers name.now None) }
    {
        forget_first(&mut self.firsts, hash_of(name), number);
        self.others.remove(name);
    }
}

// Takes a hash out, if this is its number.
fn forget_first(firsts: &mut HashMap<u32, u32>, hash: u32, number: u64)
    ensures less { (h n : ℕ) → get nat_eq firsts.new h ≡ Some n → get nat_eq firsts.old h ≡ Some n }
    ensures kept { (h n : ℕ) → get nat_eq firsts.old h ≡ Some n → n ≢ number → get nat_eq firsts.new h ≡ Some n }
    ensures gone { get nat_eq firsts.new hash ≢ Some number }
{
    let known = firsts.get(&hash).copied();
    if known.map(u64::from) == Some(number) {
        firsts.remove(&hash);
    }
}
