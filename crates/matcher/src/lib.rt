// Matching by alternatives that stand in lists: answers and tries of a row and of all rows, totals.
#![tactic(auto)]

pub mod answers;
pub mod scenes;
pub mod tables;
