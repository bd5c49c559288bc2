// The tests whose lists a dump walks over.
ghost use Rattle.std.specs.Prelude.{◌≡◌, ◌∷◌, [], IfOk};
ghost use Rattle.alta_dump.specs.Shown.{dump_tests};
ghost use Rattle.alta_search.specs.Order.{used};

use alta_codec::Bytes;
use alta_machine::Test;
use alta_machine::kinds::{DOCUMENT_END, TITLE_END, WORD};
use alta_search::Loading;
use std::alloc::{AllocError, Global};

/// The tests whose lists a dump needs, in the order of loading: those of the ends of documents and of titles, and that of all
/// folded words. Fails for want of memory alone.
pub fn dump_order(alloc: Global) -> Result<Loading, AllocError>
    ensures { IfOk result (λ loading. used loading ≡ dump_tests) }
{
    let ends = Loading::new(alloc).with(&Test::Is(kind(alloc, DOCUMENT_END)?))?;
    let titles = ends.with(&Test::Is(kind(alloc, TITLE_END)?))?;
    let words = titles.with(&Test::Begins(kind(alloc, WORD)?))?;
    Ok(words)
}

// The term that is a kind alone.
fn kind(alloc: Global, kind: u8) -> Result<Bytes, AllocError>
    ensures { IfOk result (λ term. term ≡ kind ∷ []) }
{
    let term = Vec::from_slice(alloc, &[kind])?;
    Ok(Bytes::from_vec(term))
}
