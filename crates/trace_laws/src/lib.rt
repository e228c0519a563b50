// The theorems of the trace files: nothing but proofs.
#![tactic(auto)]
