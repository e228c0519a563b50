// From an expression's tree of either sort and a trace, to its listing.
#![tactic(auto)]

pub mod listings;
