// The listing of a pattern's answers, and that of an expression's values, each into a lent buffer.
#![tactic(auto)]

pub mod listings;
pub mod totals;
