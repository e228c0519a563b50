// What the program reads: files and arguments, and the trace that an argument names. It is proved to be safe and to
// end; no contract can say what is read.
#![tactic(auto)]

pub mod arguments;
pub mod files;
pub mod patterns;
pub mod traces;
