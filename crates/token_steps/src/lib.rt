// One token of a text: the class of a byte, and the longest token that starts at one.
#![tactic(auto)]

pub mod classes;
mod spellings;
pub mod steps;

// The class of a byte.
#[derive(Clone, Copy)]
pub enum Class {
    Letter,
    Quote,
    Digit,
    Blank,
    Operator,
    Other,
}

// One token: its code and how many bytes it has.
#[derive(Clone, Copy)]
pub struct Step {
    pub code: u8,
    pub size: usize,
}
