// Answers by columns: what a test says on many events one after the other, and passes over such answers.
#![tactic(auto)]

pub mod passes;
pub mod tables;
pub mod tests;
