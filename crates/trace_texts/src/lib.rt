// A trace as a text: its words and lines, found byte by byte.
#![tactic(auto)]

pub mod lines;
pub mod words;
