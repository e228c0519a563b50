// The lines of a listing, of a pattern's answers or of an expression's values.
#![tactic(auto)]

pub mod lines;
