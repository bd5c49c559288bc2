//! Ranking by whole numbers: the uses of a query's tests, the score of a document, and the first answers by score.
#![tactic(auto)]

mod any_use;
mod best;
mod gathering;
mod laws;
mod ranking;
mod scorer;
mod scoring;

pub use any_use::asks_any_use;
pub use best::Best;
pub use gathering::uses;
pub use laws::{
    a_query_has_few_uses, a_ranking_is_sorted, a_score_is_of_an_answer, a_score_is_of_the_cells,
};
pub use ranking::first;
pub use scorer::Scorer;
