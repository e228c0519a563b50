// The words of a line of a program's input: the numbers and lists among them, and texts with shorthands. All are proved
// to be safe and to end; what they read is printed beside what is answered.
#![tactic(auto)]

pub mod lists;
pub mod pieces;
pub mod words;
