// Leaf code on states: operators and relations, edges, changes of a row, the first code above 7; the old rules.
#![tactic(auto)]

pub mod changes;
pub mod codes;
pub mod edges;
pub mod rules;
pub mod states;
