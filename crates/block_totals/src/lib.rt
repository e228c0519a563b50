// The totals of all rows of a trace, by columns where they suit.
#![tactic(auto)]

pub mod totals;
