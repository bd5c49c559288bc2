//! How many steps seeks, searches and pages take, in figures: contracts that follow from those of the crates below. It holds no product.
#![tactic(auto)]

pub mod figures;
pub mod unions;
