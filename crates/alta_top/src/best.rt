// What is told of the best answers of a query.
use alta_machine::ScoredList;

/// The best answers of a query: the first by score, and how many answers there are in all.
#[derive(Drop)]
pub struct Top {
    /// The answers, by falling score and then by rising number.
    pub answers: ScoredList,
    /// How many answers the query has.
    pub total: u64,
}
