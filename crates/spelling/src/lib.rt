// A token's spelling, and some tokens' with one blank between them.
#![tactic(auto)]

mod halves;
pub mod spells;
