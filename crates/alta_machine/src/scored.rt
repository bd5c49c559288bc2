// Answers with their scores.
ghost use Rattle.std.proofs.Common.{rules};
ghost use Rattle.std.specs.Cmp.{partial_order_from_own_ties};
ghost use Rattle.std.specs.Cmp.Rules.{comparing};
ghost use Rattle.std.specs.Ordering.{nat_cmp, on, flip_args, then_cmp, as_partial_cmp};

use alta_codec::{Listed, Text};
use std::cmp::Ordering;

/// An answer of a query with its score. An answer comes before another one by a greater score, or at the same score by a
/// lesser number. No two documents have the same number, so the order and `==` leave the names out.
#[derive(Drop)]
#[derive_where(PartialEq, Eq)]
pub struct Scored {
    /// The document's number.
    pub number: u64,
    /// The document's name.
    #[derive_where(skip)]
    pub name: Text,
    /// The document's score.
    pub score: u64,
}

impl Ord for Scored {
    ghost cmp = { then_cmp (flip_args (on (λ s. s.score) nat_cmp)) (on (λ s. s.number) nat_cmp) };

    ghost total = { Prim.search (comparing, rules) };

    ghost matches_partial_cmp = { Prim.search (comparing, rules) };

    ghost matches_eq = { Prim.search (comparing, rules) };

    fn cmp(&self, other: &Scored) -> Ordering {
        other
            .score
            .cmp(&self.score)
            .then(self.number.cmp(&other.number))
    }
}

impl PartialOrd for Scored {
    ghost partial_cmp = { as_partial_cmp (then_cmp (flip_args (on (λ s. s.score) nat_cmp))
        (on (λ s. s.number) nat_cmp)) };

    ghost laws = { partial_order_from_own_ties (Prim.search (comparing, rules)) (Prim.search (comparing, rules)) };

    fn partial_cmp(&self, other: &Scored) -> Option<Ordering> {
        Some(self.cmp(other))
    }
}

/// Answers with their scores.
pub type ScoredList = Listed<Scored>;
