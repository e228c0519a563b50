// The calls of the library for C under plain names; `dachsmond_c` exports them, and `include/dachsmond.h` declares them. A
// call hands on to the crate that has it and tells what came of it in numbers (`telling`). Lent memory: pointer and length.
#![tactic(auto)]

pub mod changing;
pub mod files;
pub mod listed;
pub mod listings;
pub mod matching;
pub mod rows;
pub mod rules;
pub mod texts;
pub mod versions;
pub mod written;
