// The two rules for a ternary of an unknown choice, beside each other, and 000's event report under any rules: nothing
// but proofs.
#![tactic(auto)]
