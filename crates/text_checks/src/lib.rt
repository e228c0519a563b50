// A trace as a text, checked word by word.
#![tactic(auto)]

pub mod states;
pub mod times;
