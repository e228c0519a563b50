// The call that corrects a row.
#![tactic(auto)]

pub mod correcting;
