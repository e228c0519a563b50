// Trace files: the marks of their records, and the parts of a record.
#![tactic(auto)]

pub mod parts;

// The mark of a record; of a row, how many bytes its time has.
#[derive(Clone, Copy)]
pub enum Mark {
    Name,
    Row(usize),
    End,
    Other,
}
