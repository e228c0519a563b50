// Expressions as their bytes: what a tree is, where its parts start, and the brackets that its text needs.
#![tactic(auto)]

pub mod brackets;
pub mod parts;
pub mod sorts;
