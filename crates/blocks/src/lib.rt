// The rows of a trace block by block: each test's answers are made once as a column, and alternatives are passes over
// columns.
#![tactic(auto)]

pub mod meeting;
pub mod numbering;
pub mod rows;
