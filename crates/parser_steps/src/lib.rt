// The state of a parser, and its single steps.
#![tactic(auto)]

pub mod cursor;

// How far a parser is: the number of the next token, how many nodes it wrote, and whether it goes on.
#[derive(Clone, Copy)]
pub struct State {
    pub at: usize,
    pub len: usize,
    pub ok: bool,
}
