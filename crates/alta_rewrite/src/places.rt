// Where what is written anew is to stand.
ghost use Rattle.std.specs.Prelude.{◌≡◌, ◌++◌, []};
ghost use Rattle.alta_root.specs.Gaps.{taken_by};
ghost use Rattle.alta_rewrite.specs.Places.{Gives, as_list, place_for, places_for};

use crate::RewriteFault;
use alta_codec::Extent;
use alta_root::{Root, first_gap, greatest_gap};

/// The places of two levels and of a deletion list, where they are written.
#[derive(Clone, Copy)]
pub(crate) struct Places {
    pub(crate) oldest: Option<Extent>,
    pub(crate) newest: Option<Extent>,
    pub(crate) list: Option<Extent>,
}

// The first gap of so many bytes beside the extents of the root and others; none for no bytes.
fn first_place(
    root: &Root,
    extra: &[Extent],
    bytes: u64,
    limit: u64,
) -> Result<Option<Extent>, RewriteFault>
    ensures { Gives result (place_for (taken_by root.now extra.now) bytes limit) }
{
    if bytes == 0 {
        return Ok(None);
    }
    match first_gap(root, extra, bytes, limit) {
        Some(place) => Ok(Some(Extent { place, bytes })),
        None => Err(RewriteFault::Full {
            need: bytes,
            gap: greatest_gap(root, extra, limit),
        }),
    }
}

// The place of what comes behind a level.
fn place_behind(
    root: &Root,
    level: Option<Extent>,
    bytes: u64,
    limit: u64,
) -> Result<Option<Extent>, RewriteFault>
    ensures { Gives result (place_for (taken_by root.now (as_list level)) bytes limit) }
{
    match level {
        Some(extent) => first_place(root, &[extent], bytes, limit),
        None => first_place(root, &[], bytes, limit),
    }
}

// The place of a list behind two levels.
fn list_place(
    root: &Root,
    oldest: Option<Extent>,
    newest: Option<Extent>,
    bytes: u64,
    limit: u64,
) -> Result<Option<Extent>, RewriteFault>
    ensures { Gives result (place_for (taken_by root.now (as_list oldest ++ as_list newest)) bytes limit) }
{
    match (oldest, newest) {
        (Some(first), Some(last)) => first_place(root, &[first, last], bytes, limit),
        (None, last) => place_behind(root, last, bytes, limit),
        (first, None) => place_behind(root, first, bytes, limit),
    }
}

/// The places of two levels and of a deletion list of so many bytes.
pub(crate) fn find_places(
    root: &Root,
    oldest: u64,
    newest: u64,
    list: u64,
    limit: u64,
) -> Result<Places, RewriteFault>
    ensures { Gives result (places_for limit root.now oldest newest list) }
{
    let oldest = first_place(root, &[], oldest, limit)?;
    let newest = place_behind(root, oldest, newest, limit)?;
    let list = list_place(root, oldest, newest, list, limit)?;
    Ok(Places {
        oldest,
        newest,
        list,
    })
}
