// What every crate needs: the outcome of a call, refusals, and bytes behind what is written.
#![tactic(auto)]

pub mod puts;
pub mod refusing;

// Refused work: its number in document 01's table, the place, and how many bytes from the place on are refused.
#[derive(Clone, Copy)]
pub struct Refusal {
    pub number: u8,
    pub place: usize,
    pub extent: usize,
}
