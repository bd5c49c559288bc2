// The terms in collating order.
ghost use Rattle.std.specs.Prelude.{◌≡◌, nat_eq, IfOk};
ghost use Rattle.std.specs.List.{filter, starts_with, IsDistinct};
ghost use Rattle.std.specs.List.Sorted.{IsStrictlySortedBy};
ghost use Rattle.std.specs.Ordering.{nat_cmp};
ghost use Rattle.std.specs.Cmp.Lexicographic.{slice_cmp};
ghost use Rattle.std.specs.Str.{bytes_eq};
ghost use Rattle.alta_content.specs.Joining.{in_order};
ghost use Rattle.alta_memlevel.specs.Lists.{bytes_in, keys_in};

use crate::lists::Lists;
use alta_codec::Bytes;
use std::alloc::{AllocError, Global};

/// The terms that begin so, each once, in no order. All terms are visited.
fn terms_that_begin<'a>(
    alloc: Global,
    lists: &'a Lists,
    prefix: &[u8],
) -> Result<Vec<&'a [u8]>, AllocError>
    ensures terms { IfOk result (λ found. bytes_in found.items
        ≡ filter (λ t. starts_with nat_eq t prefix.now) (keys_in lists.now.entries)) }
    ensures apart { IfOk result (λ found. IsDistinct bytes_eq (bytes_in found.items)) }
{
    let mut found = Vec::new(alloc);
    for (term, _) in lists {
        let bytes = term.as_slice();
        if !bytes.starts_with(prefix) {
            continue;
        }
        found.push(bytes)?;
    }
    Ok(found)
}

/// The terms that begin so, in order. All terms are visited, and only those that begin so are sorted.
pub fn terms_in_order<'a>(
    alloc: Global,
    lists: &'a Lists,
    prefix: &[u8],
) -> Result<Vec<&'a [u8]>, AllocError>
    ensures { IfOk result (λ found. bytes_in found.items
        ≡ filter (λ t. starts_with nat_eq t prefix.now) (in_order (keys_in lists.now.entries))) }
{
    let mut found = terms_that_begin(alloc, lists, prefix)?;
    found.sort_unstable();
    Ok(found)
}

/// The same terms, copied.
pub fn terms_from(alloc: Global, lists: &Lists, prefix: &[u8]) -> Result<Vec<Bytes>, AllocError>
    ensures terms { IfOk result (λ found. found.items
        ≡ filter (λ t. starts_with nat_eq t prefix.now) (in_order (keys_in lists.now.entries))) }
    ensures rising { IfOk result (λ found. IsStrictlySortedBy (slice_cmp nat_cmp) found.items) }
{
    let terms = terms_in_order(alloc, lists, prefix)?;
    let mut found = Vec::new(alloc);
    for term in &terms {
        let bytes = Vec::from_slice(alloc, *term)?;
        found.push(Bytes::from_vec(bytes))?;
    }
    Ok(found)
}
