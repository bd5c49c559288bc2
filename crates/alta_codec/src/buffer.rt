// A buffer of zeros.
ghost use Rattle.std.specs.Prelude.{◌≡◌, length, replicate, IfOk};

use std::alloc::{AllocError, Global};

/// So many zeros. In the caller's frame no long list of them stands.
pub fn zeros(alloc: Global, n: usize) -> Result<Vec<u8>, AllocError>
    ensures zeros { IfOk result (λ v. v.items ≡ replicate n 0) }
    ensures long { IfOk result (λ v. length v.items ≡ n) }
{
    Ok(vec![in alloc; 0u8; n]?)
}
