// Trace files: the record where a cursor stands is checked, and the cursor goes on.
#![tactic(auto)]

pub mod checks;
pub mod rows;

// How far a file is read: the place of the next record, the names and rows before it, the last row's time.
#[derive(Clone, Copy)]
pub struct Cursor {
    pub place: usize,
    pub names: usize,
    pub rows: usize,
    pub last: u64,
}

// What a good record is: a name's, a row's whose time has so many bytes, or the one that ends the file.
#[derive(Clone, Copy)]
pub enum Record {
    Name,
    Row(usize),
    End,
}
