// Listings of all rows of a trace, from a text: of a pattern its answers, of a boolean expression its values.
#![tactic(auto)]

pub mod listings;
