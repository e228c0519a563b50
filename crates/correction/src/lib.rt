// The correction of one row of a trace.
#![tactic(auto)]

pub mod corrections;
