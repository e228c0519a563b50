// Names and sorts: the slot of a name, the first name that has none (refusal 6), and the pass over the nodes of a tree
// that finds sorts and bytes (refusal 7).
#![tactic(auto)]

pub mod lookup;
pub mod sorts;
