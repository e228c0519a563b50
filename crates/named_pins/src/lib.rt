// The pins that an expression names, marked in a table.
#![tactic(auto)]

pub mod marking;
