// Which sides a bound compares.

/// Whether each side of a bound is a location or the previous location of its reader: first the side that is bounded,
/// then the side that bounds it.
#[derive(Clone, Copy, Debug, PartialEq, Eq)]
pub enum Form {
    /// A location by a location.
    LocLoc,
    /// A previous location by a location.
    PrevLoc,
    /// A location by a previous location.
    LocPrev,
    /// A previous location by a previous location.
    PrevPrev,
}
