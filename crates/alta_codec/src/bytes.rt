// Owned bytes, which contracts see as the list of their values.
ghost use Rattle.std.specs.Prelude.{◌≡◌, IfOk};

use std::alloc::AllocError;
use std::marker::Model;

/// Owned bytes. Contracts see them as a list of numbers.
#[derive(Drop)]
pub struct Bytes {
    bytes: Vec<u8>,
}

impl Model for Bytes {
    ghost use Rattle.std.specs.Prelude.{List, ℕ};

    ghost Value = { List ℕ };

    ghost view = { λ b. b.bytes.items };
}

impl Bytes {
    /// These bytes, without a copy.
    pub fn from_vec(bytes: Vec<u8>) -> Bytes
        ensures { result ≡ bytes.items }
    {
        Bytes { bytes }
    }

    /// The vector that holds the bytes, without a copy.
    pub fn into_vec(self) -> Vec<u8>
        ensures { result.items ≡ self }
    {
        self.bytes
    }

    /// The bytes, borrowed.
    pub fn as_slice(&self) -> &[u8]
        ensures { result.now ≡ self.now }
    {
        &self.bytes
    }

    /// An equal value, in memory of the same allocator.
    pub fn copy(&self) -> Result<Bytes, AllocError>
        ensures { IfOk result (λ b. b ≡ self.now) }
    {
        Ok(Bytes {
            bytes: self.bytes.clone()?,
        })
    }
}
