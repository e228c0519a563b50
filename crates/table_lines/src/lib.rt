// The lines of the table, each into a lent buffer.
#![tactic(auto)]

pub mod lines;
