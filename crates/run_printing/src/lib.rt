// What the programs that run the library print: words and numbers, refusals, states and lists, texts. All are proved
// to be safe and to end; no contract can say what is printed.
#![tactic(auto)]

pub mod printing;
pub mod states;
pub mod texts;
