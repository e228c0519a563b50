// The pins that an expression's text names, joined to a table of pins that are kept (document 02, [11]).
#![tactic(auto)]

pub mod keeping;
