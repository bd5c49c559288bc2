// The name of a document of a level.
// A row of an open level points into the bytes of its part of the segment, where each name stands behind its length: so a name takes
// no memory of its own.
ghost use Rattle.std.specs.Prelude.{◌≡◌, ◌<◌, length, IfOk};
ghost use Rattle.std.specs.Str.{IsUtf8};
ghost use Rattle.alta_content.specs.Names.{HoldsName, Says, name_in};

use std::alloc::{AllocError, Global};
use std::marker::Model;
use std::rc::Rc;

/// The name of a document, in bytes that are shared with other names. Contracts see it as the list of its bytes.
#[derive(Drop)]
pub struct DocName {
    // Bytes among which the name stands.
    bytes: Rc<Vec<u8>>,
    // The place of the byte that has the name's length. The name stands behind it.
    at: usize,
}

impl Model for DocName {
    ghost use Rattle.std.specs.Prelude.{List, ℕ};
    ghost use Rattle.alta_content.specs.Names.{HoldsName, name_in};

    ghost Value = { List ℕ };

    ghost view = { λ n. name_in n.bytes.value.items n.at };

    ghost invariant = { λ n. HoldsName n.bytes.value.items n.at };
}

impl DocName {
    /// The name whose length stands at a place of these bytes, which it shares.
    pub fn at(bytes: &Rc<Vec<u8>>, at: usize) -> Result<DocName, AllocError>
        requires { HoldsName bytes.now.value.items at }
        ensures { IfOk result (λ name. name ≡ name_in bytes.now.value.items at) }
    {
        Ok(DocName {
            bytes: bytes.clone()?,
            at,
        })
    }

    /// A name in memory of its own. Fails for want of memory alone.
    pub fn of(alloc: Global, text: &str) -> Result<DocName, AllocError>
        requires { length text.now < 256 }
        ensures { IfOk result (λ name. name ≡ text.now) }
    {
        let bytes = behind_length(alloc, text)?;
        match Rc::new(alloc, bytes) {
            Ok(bytes) => Ok(DocName { bytes, at: 0 }),
            Err(_) => Err(AllocError),
        }
    }

    /// The name's bytes, borrowed. They are text.
    pub fn as_bytes(&self) -> &[u8]
        ensures value { result.now ≡ self.now }
        ensures text { IsUtf8 result.now }
    {
        let len = self.bytes[self.at] as usize;
        let (name, _behind) = self.bytes[self.at + 1..].split_at(len);
        name
    }

    /// The name, borrowed.
    pub fn as_str(&self) -> &str
        ensures { Says result.now self.now }
    {
        match str::from_utf8(self.as_bytes()) {
            Ok(name) => name,
            Err(_) => unreachable!(),
        }
    }

    /// An equal name, which shares this one's bytes. It takes no memory.
    pub fn share(&self) -> Result<DocName, AllocError>
        ensures { IfOk result (λ share. share ≡ self.now) }
    {
        Ok(DocName {
            bytes: self.bytes.clone()?,
            at: self.at,
        })
    }
}

// A byte that has the text's length, and behind it the text.
fn behind_length(alloc: Global, text: &str) -> Result<Vec<u8>, AllocError>
    requires { length text.now < 256 }
    ensures { IfOk result (λ bytes. HoldsName bytes.items 0 × (name_in bytes.items 0 ≡ text.now)) }
{
    let mut bytes = Vec::with_capacity(alloc, text.len() + 1)?;
    bytes.push(text.len() as u8)?;
    bytes.extend_from_slice(text.as_bytes())?;
    Ok(bytes)
}
