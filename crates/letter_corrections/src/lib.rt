// The correction of a trace's row from what a person types: the letters of its states, and the digits of its number.
#![tactic(auto)]

pub mod correcting;
