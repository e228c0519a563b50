// The lines of the activity listing: of each row its time, its states, how many names changed, and which.
#![tactic(auto)]

pub mod marked;
pub mod rows;
