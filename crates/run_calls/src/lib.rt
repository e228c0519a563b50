// Calls over rows, run and printed: at a row, at all rows one by one, by the queue, the totals; the times of the rows.
// All are proved to be safe and to end; what the calls answer, their contracts say.
#![tactic(auto)]

pub mod answers;
pub mod clocks;
pub mod queues;
pub mod rows;
