// The pins of a trace that are not kept, overwritten by X (document 02, [11]).
#![tactic(auto)]

pub mod blanking;
