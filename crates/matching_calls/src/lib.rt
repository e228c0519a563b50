// The calls that match by the alternatives of a tree.
#![tactic(auto)]

pub mod matching;
