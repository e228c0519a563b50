// Numbers and shares as text, into a lent buffer.
#![tactic(auto)]

pub mod numbers;
pub mod shares;
