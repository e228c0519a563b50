// Where the matches began (document 02, [12]), from the answers and the numbers tried.
#![tactic(auto)]

pub mod times;
