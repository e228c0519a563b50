// The calls over rows, for alternatives that are handed in: matching, totals, queue.
#![tactic(auto)]

pub mod listed;
