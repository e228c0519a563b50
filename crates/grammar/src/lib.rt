// The grammar of document 01, as definitions and laws. The functions that read by it are the parser's.
#![tactic(auto)]

// What a token is, by its code, and the byte where it begins.
#[derive(Clone, Copy)]
pub struct Token {
    pub code: u8,
    pub place: u16,
}

// A parser's answer: the nodes of the tree, with zeros behind them, or the place of the refusal.
#[derive(Clone, Copy)]
pub struct Parsed {
    pub ok: bool,
    pub place: usize,
    pub len: usize,
    pub codes: [u8; 256],
    pub places: [u16; 256],
}
