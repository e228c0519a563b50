// What the calls promise together: nothing but proofs.
#![tactic(auto)]
