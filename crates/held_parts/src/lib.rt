// The pins of an expression, in its part of the table of answers.
#![tactic(auto)]

pub mod holding;
