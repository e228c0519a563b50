// Parts of a text that a byte separates, the lines of a text, and bytes put behind others: what the programs and the
// runs read their input and build their output with. All are proved to be safe and to end, and to stay in the text.
#![tactic(auto)]

pub mod lines;
pub mod parts;
pub mod puts;
