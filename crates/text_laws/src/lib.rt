// What reading and writing expressions mean together: nothing but proofs.
#![tactic(auto)]
