// The text of a step and of an alternative, written from the lists.
#![tactic(auto)]

pub mod steps;
