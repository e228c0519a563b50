// Steady pins between events: the laws of the filled expression. Nothing but proofs.
#![tactic(auto)]
