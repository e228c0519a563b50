// Trace files: reading one into three lent lists, as document 01's chapter "Trace file" has it.
#![tactic(auto)]

mod checks;
pub mod read;

// How many names and rows a trace has.
#[derive(Clone, Copy)]
pub struct Size {
    pub names: usize,
    pub rows: usize,
}
