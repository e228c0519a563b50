// Which alternatives of a tree are contradictory.
#![tactic(auto)]

pub mod possible;
pub mod reports;
