// A trace from a text: checked and counted in one pass, written in another.
#![tactic(auto)]

pub mod reading;
