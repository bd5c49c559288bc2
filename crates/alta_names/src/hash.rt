// The hash of a name.
ghost use Rattle.std.specs.Prelude.{◌≡◌};
ghost use Rattle.alta_names.specs.Names.{name_hash};

use std::hash::{FoldHasher, Hasher};

/// The hash of a name, of which four bytes are kept. The seed is fixed: whoever picks all names can make them have one hash, and no answer
/// wrong.
pub(crate) fn hash_of(name: &str) -> u32
    ensures { result ≡ name_hash name.now }
{
    let mut hasher = FoldHasher::default();
    hasher.write(name.as_bytes());
    (hasher.finish() % 4_294_967_296) as u32
}
