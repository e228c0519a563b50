// The answer of a vector expression as it is written, on a window and at a row, by recursion over the tree in its
// array. A table holds what was worked out: of each part of the tree its answer on each window. So none is asked twice.
//   lengths    the longest window on which an expression can answer other than no
//   filling    the recursion over the tree
//   rows       the answer on a window and at a row
#![tactic(auto)]

mod filling;
pub mod lengths;
pub mod rows;
