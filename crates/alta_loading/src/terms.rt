// The lists of several terms.
// Terms come in collating order, and each row of a level that begins so has one of them: so behind the term before, a level that has the
// term compares one row, and another two, in place of a look-up by halves.
ghost use Rattle.std.specs.Prelude.{◌≡◌, ℕ, List, map, All, Err, IfOk, IsTrue};
ghost use Rattle.alta_disk.specs.Disk.{DiskState};
ghost use Rattle.alta_loading.specs.Lists.{LiesWithin};
ghost use Rattle.alta_loading.specs.Loads.{ReadsLists};
ghost use Rattle.alta_loading.specs.Near.{AreNear};
ghost use Rattle.alta_loading.specs.Terms.{KeepTerms, lists_of_term, loads_of, term_key};
ghost use Rattle.alta_loading.specs.Kept.{AreKept};
ghost use Rattle.alta_search.specs.Lists.{key_of, term_lists};

use crate::kept::KeptLists;
use crate::near::Near;
use crate::term::{all_lists, load_coded};
use alta_codec::Bytes;
use alta_disk::{Disk, LoadFault};
use alta_memlevel::MemLevel;
use alta_search::TermLists;
use alta_table::OpenLevel;
use std::alloc::{AllocError, Global};

/// Loads the lists of each of these terms, one term after the other: those of the levels, as [`crate::term::load_coded`] loads them, and
/// behind them a copy of that of the newest documents, which are numbered behind all levels. Each term is looked up in a level near the
/// place of the term before, so terms in collating order are found in a few steps each.
///
/// # Errors
///
/// Those of [`crate::term::load_coded`]: the damage is the first fault of the first list that has one, in the order of loading.
pub fn load_terms<D: Disk>(
    alloc: Global,
    disk: &mut D,
    levels: &[OpenLevel],
    kept: &mut KeptLists,
    newest: &MemLevel,
    terms: Vec<Bytes>,
) -> Result<Vec<TermLists>, LoadFault>
    requires within { D.tells → All (λ level. LiesWithin level (D.state disk.old).content) levels.now }
    requires known { AreKept D.tells (D.state disk.old).content levels.now kept.old }
    requires sound { IsTrue newest.now.sound }
    ensures keys { IfOk result (λ loaded. map key_of loaded.items
        ≡ map (term_key levels.now newest.now.content) terms.items) }
    ensures lists { D.tells → IfOk result (λ loaded. map term_lists loaded.items
        ≡ map (lists_of_term levels.now newest.now.content (D.state disk.old).content) terms.items) }
    ensures kept { IfOk result (λ loaded. KeepTerms levels.now newest.now.content terms.items
        (map term_lists loaded.items)) }
    ensures known { AreKept D.tells (D.state disk.new).content levels.now kept.new }
    ensures loads { ReadsLists D.tells (loads_of levels.now terms.items) (D.state disk.old) (D.state disk.new) result }
{
    let behind = levels.len() as u64;
    let mut loaded = Vec::with_capacity(alloc, terms.len())?;
    let mut nears = nears_of(alloc, levels, terms.len())?;
    for term in terms {
        match load_coded(alloc, disk, levels, kept, term.as_slice(), &mut nears) {
            Ok(coded) => {
                let lists = all_lists(alloc, newest, behind, term, coded)?;
                loaded.push(lists)?;
            }
            Err(fault) => return Err(fault),
        }
    }
    Ok(loaded)
}

// The levels in which so many terms are looked up one behind the other. A term that is alone has none before it.
fn nears_of<'a>(
    alloc: Global,
    levels: &'a [OpenLevel],
    terms: usize,
) -> Result<Vec<Near<'a>>, AllocError>
    ensures { IfOk result (λ nears. AreNear levels.now nears.items) }
{
    if terms < 2 {
        return Ok(Vec::new(alloc));
    }
    let nears = all_near(alloc, levels)?;
    Ok(nears)
}

// All levels, to look up terms in them.
fn all_near<'a>(alloc: Global, levels: &'a [OpenLevel]) -> Result<Vec<Near<'a>>, AllocError>
    ensures { IfOk result (λ nears. nears.items ≡ levels.now) }
{
    let mut nears = Vec::with_capacity(alloc, levels.len())?;
    for level in levels {
        nears.push(Near::new(level))?;
    }
    Ok(nears)
}
