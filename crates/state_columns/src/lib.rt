// The states of a boolean expression at rows one after the other: columns of states.
#![tactic(auto)]

pub mod combining;
pub mod spelling;
