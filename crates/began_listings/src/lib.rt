// The listing of a pattern's answers with where each match began, from its tree and a trace, into a lent buffer.
#![tactic(auto)]

pub mod listings;
mod rows;
