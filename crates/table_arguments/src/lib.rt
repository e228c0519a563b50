// The words of the command `table`.
#![tactic(auto)]

pub mod arguments;
