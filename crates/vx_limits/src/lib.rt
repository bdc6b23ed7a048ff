// The limits on how many things a program has (L3 to L8 of docs/LANGUAGE.md: functions to bytes of a format), and nodes of functions.
#![tactic(auto)]

pub mod limits;
mod node_counts;

pub use node_counts::{counted_nodes, expression_nodes, nodes, simple_nodes, statement_nodes, sum};
