// What every crate of the project speaks of: answers, sorts, rows and times, and the rules of evaluation.
#![tactic(auto)]

// What a row answers.
#[derive(Clone, Copy)]
pub enum Answer {
    No,
    Yes,
    Unknown,
    NoEvent,
}

// What an expression is.
#[derive(Clone, Copy)]
pub enum Sort {
    Boolean,
    Vector,
}

// A row number and a time stamp are two units.
#[derive(Clone, Copy)]
pub struct RowNo(pub u32);

#[derive(Clone, Copy)]
pub struct Stamp(pub u64);

// The rules that every call which evaluates takes, held fixed through a trace and its corrections.
#[repr(C)]
#[derive(Clone, Copy)]
pub struct Rules {
    // The value of `c ? a : b` where c is unknown: the branches' value if it is the same, or X always.
    pub equal_branches: bool,
    // Whether the pins of a run of `->` are steady between their events (document 02, [2]).
    pub steady_pins: bool,
}
