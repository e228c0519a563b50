// The words of the command `blank` behind the two files: the pins that they name or that their patterns name are kept,
// each text by a call of the library. It is proved to be safe and to end; what a text's pins are, the contract of
// `keep_text` says.
#![tactic(auto)]

mod keeping;
pub mod words;
