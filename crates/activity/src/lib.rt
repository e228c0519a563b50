// The activity listing: a trace as a table that tells of each row which names changed, and how many they are.
#![tactic(auto)]

pub mod texts;
