// The listing of all rows of a trace with where each match began, from a text.
#![tactic(auto)]

pub mod listings;
