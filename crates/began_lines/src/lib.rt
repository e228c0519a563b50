// A line of the listing that also tells where each match began.
#![tactic(auto)]

pub mod lines;
