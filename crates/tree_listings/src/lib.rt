// Texts of a pattern's tree on a trace, each into a lent buffer: the listing of its answers, and its line of the table.
// The answers and the totals are those that document 01 defines; no list of them is handed in.
#![tactic(auto)]

pub mod lines;
pub mod listings;
