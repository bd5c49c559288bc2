// How many lists have a location.

/// Which of some lists have a location, each list by its index.
#[derive(Clone, Copy, Debug, PartialEq, Eq, Drop)]
pub enum Held {
    /// None of them.
    Never,
    /// This one alone.
    Once(u32),
    /// Two of them at least.
    Often,
}
