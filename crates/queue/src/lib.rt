// The queue: rows come one after the other.
#![tactic(auto)]

pub mod queues;
