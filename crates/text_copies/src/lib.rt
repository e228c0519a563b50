// The trace that a text is, copied out of the text. It cannot fail.
#![tactic(auto)]

pub mod copies;
