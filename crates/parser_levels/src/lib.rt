// The parser, a function for each level of the operators.
#![tactic(auto)]

pub mod level;
