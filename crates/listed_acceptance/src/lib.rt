// Whether alternatives that are handed in as lists are accepted: limit 8 counted, the tests, and a call by itself.
#![tactic(auto)]

pub mod accepting;
pub mod counting;
pub mod operands;
