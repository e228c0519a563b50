// The queue with times (document 02, [12]): each row's time is kept beside its states.
#![tactic(auto)]

pub mod queues;
pub mod stamps;
