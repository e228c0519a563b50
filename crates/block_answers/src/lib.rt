// The answers and the numbers tried at all rows of a trace, by columns where they suit.
#![tactic(auto)]

pub mod answers;
pub mod filling;
