// The rows of a trace as a text, checked line by line.
#![tactic(auto)]

pub mod rows;
