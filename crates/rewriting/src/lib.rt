// The alternatives of a tree, written into four lists.
#![tactic(auto)]

pub mod lists;
