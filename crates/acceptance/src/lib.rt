// The size of a vector expression, as a tree, in alternatives, steps and tests: limit 8.
#![tactic(auto)]

pub mod accepting;
pub mod counts;
pub mod notes;
pub mod sizes;
