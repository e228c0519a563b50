// The library for C as a static library: the calls of `dachsmond` under their own names, as `include/dachsmond.h`
// declares them. Each hands on to the call of its name, with its clauses. Lent memory is a pointer and a length.
#![tactic(auto)]

pub mod changing;
pub mod files;
pub mod listed;
pub mod listings;
pub mod matching;
pub mod rows;
pub mod rules;
pub mod texts;
pub mod versions;
pub mod written;
