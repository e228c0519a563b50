// The lines of the table, printed: the heading, a line for each pattern, whose totals go to the sums, the totals; the
// patterns of a text, one a line. It is proved to be safe and to end; what the lines and the sums are, the contracts of
// `jobs` and `table_lines` say.
#![tactic(auto)]

pub mod accounts;
pub mod patterns;
