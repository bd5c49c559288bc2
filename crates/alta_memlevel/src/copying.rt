// The lists that leave the level.
ghost use Rattle.std.specs.Prelude.{◌≡◌, IfOk};
ghost use Rattle.alta_content.specs.Spans.{SpansRise, lists_outside};
ghost use Rattle.alta_memlevel.specs.Lists.{term_lists};

use crate::lists::{Lists, list_of};
use crate::terms::terms_in_order;
use alta_content::{Span, TermLists, put_locations};
use std::alloc::{AllocError, Global};
use std::default::MadeWith;

/// The terms that have a location outside of the spans, in collating order, each with these locations. Each list is copied.
pub fn copy_lists(alloc: Global, lists: &Lists, spans: &[Span]) -> Result<TermLists, AllocError>
    requires { SpansRise spans.now }
    ensures { IfOk result (λ kept. kept ≡ lists_outside spans.now (term_lists lists.now.entries)) }
{
    let terms = terms_in_order(alloc, lists, b"")?;
    let mut kept = TermLists::made_with(alloc);
    let mut locations = Vec::new(alloc);
    for term in &terms {
        locations.clear();
        put_locations(&mut locations, list_of(lists, *term), spans)?;
        if locations.is_empty() {
            continue;
        }
        kept.put(*term, &locations)?;
    }
    Ok(kept)
}
