// For each function of the library for C, that its contract allows one result, and what C may rely on by the number
// handed over: nothing but proofs.
#![tactic(auto)]
