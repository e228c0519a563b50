// The call that pushes a row to the queue.
#![tactic(auto)]

pub mod pushing;
