// The state and the value of a boolean expression as it is written, by recursion over the tree in its array; and the
// name of an answer.
#![tactic(auto)]

pub mod operators;
pub mod ranks;
pub mod values;
