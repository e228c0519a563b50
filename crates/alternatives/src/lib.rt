// Alternatives in memory, and how alternative t of an operator is put together of those of its operands.
#![tactic(auto)]

pub mod lists;
pub mod picking;
pub mod walking;
