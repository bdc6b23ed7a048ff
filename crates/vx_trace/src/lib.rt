// The trace that is picked in a graph of blocks and regions, by how often its blocks and edges were passed. What a trace is,
// vx_flow says.
#![tactic(auto)]

mod blocks;
mod counts;
mod growth;
mod heaviest;
pub mod laws;
mod picked_trace;

pub use picked_trace::{count_of_trace, pick};
