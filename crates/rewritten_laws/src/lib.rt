// What `rewrite` writes, handed to the calls that take alternatives as lists: nothing but proofs.
#![tactic(auto)]
