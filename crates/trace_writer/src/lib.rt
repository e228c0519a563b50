// Trace files: writing one, as document 01's chapter "Trace file" has it, and the check of a trace in lists.
#![tactic(auto)]

pub mod checks;
pub mod write;

// A trace in lists, as it is lent: k names in slots, a time for each row, and the states row by row.
#[derive(Clone, Copy)]
pub struct Lists<'a> {
    pub names: &'a [u8],
    pub k: usize,
    pub times: &'a [u64],
    pub states: &'a [u8],
}
