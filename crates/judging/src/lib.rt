// What the calls over rows check before they do anything, in the document's order.
#![tactic(auto)]

pub mod checks;
pub mod timed;
