// A table of answers on windows, with a part for each expression of a tree. Each entry is worked out once: from the
// states of an edge's or a condition's operand, or from the entries of an operator's operands.
//   columns    the states of a boolean expression at the rows, and an edge or a condition of it on a window
//   cuts       the operators on a window, from the answers of their operands in the table
//   parts      the part of the table that an edge, a condition or an operator has
#![tactic(auto)]

pub mod columns;
pub mod cuts;
pub mod parts;
