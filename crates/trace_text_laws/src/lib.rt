// A trace as a text: theorems alone.
#![tactic(auto)]
