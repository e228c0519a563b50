// Trace files: what the records of a good file hold is copied out.
#![tactic(auto)]

pub mod copies;
