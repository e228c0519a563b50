// The tests of one step of one alternative of a tree, written into the lists of edges and operands.
#![tactic(auto)]

pub mod pins;
pub mod splitting;
pub mod steps;
pub mod tests;
