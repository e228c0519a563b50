// The alternatives of a pattern as lines of text: number, whether it is contradictory, its steps and their tests.
#![tactic(auto)]

pub mod numbered;
