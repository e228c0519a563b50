// The steady pins of a tree (document 02, [2]), found without building the filled expression.
//   steps      the steps of a tree: whether one changes, and on which plain names it has edges
//   settling   rows of the table: a step's own, and those of a run's steps, once more is known of what comes after
//   finding    the walk from left to right, and the pins of each step
//   counting   how many pins a part has
#![tactic(auto)]

pub mod counting;
pub mod finding;
pub mod settling;
pub mod steps;
