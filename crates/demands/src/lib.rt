// The three demands, stated of a trace file and a pattern: nothing but proofs.
#![tactic(auto)]
