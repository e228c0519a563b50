// The head of a trace as a text: its names counted, and checked.
#![tactic(auto)]

pub mod counts;
pub mod heads;
