// Trace files: a record is written.
#![tactic(auto)]

pub mod puts;
