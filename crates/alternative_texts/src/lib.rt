// The text of a test of an alternative, and writing as far as there is room.
#![tactic(auto)]

pub mod puts;
pub mod showing;
