// The calls that answer as a tree is written: state, value and answer at a row, values at all rows, one window.
#![tactic(auto)]

pub mod windows;
pub mod written;
