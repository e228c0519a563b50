// What the program writes: standard output and error, the start of a complaint, and files that are saved. It is proved
// to be safe and to end; no contract can say what is written.
#![tactic(auto)]

pub mod output;
pub mod saving;
