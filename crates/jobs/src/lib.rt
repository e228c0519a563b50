// From what a person has to what a person gets: a list of names, a trace's lists and a text make totals, a line of the
// table, sums. Each call is composed of calls below it, and promises what they come to together. The listings of all
// rows stand in `row_listings`, those of alternatives in `alternative_listings`, and the correction of a row in
// `letter_corrections`.
#![tactic(auto)]

pub mod counting;
pub mod sums;
pub mod table;
