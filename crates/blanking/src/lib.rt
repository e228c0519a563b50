// Theorems alone: what an answer depends on (document 02, [11]).
#![tactic(auto)]
