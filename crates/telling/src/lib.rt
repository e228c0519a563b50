// What C is told of a call, in numbers, since an enum cannot cross to C: the types that `include/dachsmond.h` declares,
// and each kind of result as one of them. Number 0 is done; another is document 01's number of the refusal.
#![tactic(auto)]

pub mod matching;
pub mod outcomes;
pub mod rows;
pub mod texts;

// What came of a call: refused with a number at a place, or done, with a count of what it made.
#[repr(C)]
#[derive(Clone, Copy)]
pub struct Told {
    pub number: u8,
    pub place: usize,
    pub count: usize,
}

// What came of reading an expression: refused, with how many bytes from the place on are refused; or the first `len`
// entries of `tree`, with zeros behind them.
#[repr(C)]
#[derive(Clone, Copy)]
pub struct Expression {
    pub number: u8,
    pub place: usize,
    pub extent: usize,
    pub len: usize,
    pub tree: [u8; 256],
}

// What came of reading a trace: refused, or how many names and rows.
#[repr(C)]
#[derive(Clone, Copy)]
pub struct Trace {
    pub number: u8,
    pub place: usize,
    pub names: usize,
    pub rows: usize,
}

// The changes of a row: refused, or the set of changed variables and how many they are.
#[repr(C)]
#[derive(Clone, Copy)]
pub struct Changed {
    pub number: u8,
    pub place: usize,
    pub mask: u32,
    pub many: u32,
}

// The answer at a row: refused, or document 01's number of it, 0 no, 1 yes, 2 unknown, 3 no event.
#[repr(C)]
#[derive(Clone, Copy)]
pub struct Answered {
    pub number: u8,
    pub place: usize,
    pub answer: u8,
}

// The same, the number of alternatives tried, and the time where the match began: `given` is 1 where there is one, and
// else both are 0.
#[repr(C)]
#[derive(Clone, Copy)]
pub struct Matched {
    pub number: u8,
    pub place: usize,
    pub answer: u8,
    pub tries: u32,
    pub given: u8,
    pub began: u64,
}

// The totals: refused, or how many rows answer yes, no and unknown.
#[repr(C)]
#[derive(Clone, Copy)]
pub struct Counted {
    pub number: u8,
    pub place: usize,
    pub yes: u32,
    pub no: u32,
    pub unknown: u32,
}

// A queue: how many rows it keeps, their states and their times, oldest first, with zeros behind them.
#[repr(C)]
#[derive(Clone, Copy)]
pub struct Queue {
    pub kept: u32,
    pub states: [u8; 512],
    pub times: [u64; 16],
}

// What came of a push: refused, or the answer of the row pushed, the number tried and the time where its match began;
// and the queue then, which is the one handed in where the push is refused.
#[repr(C)]
#[derive(Clone, Copy)]
pub struct Pushed {
    pub number: u8,
    pub place: usize,
    pub answer: u8,
    pub tries: u32,
    pub given: u8,
    pub began: u64,
    pub queue: Queue,
}
