// Graphs of blocks, and traces of them: what they are and do, when they are sound, live values, back edges, headers.
#![tactic(auto)]

pub mod arrays;
pub mod copies;
pub mod graph;
mod header_blocks;
pub mod laws;
mod live_nodes;
pub mod live_rows;
mod liveness;
pub mod operands;
mod route_index;
pub mod routes;
pub mod touched_values;
pub mod trace;
mod walk;

pub use header_blocks::headers;
pub use liveness::{live, live_on};
pub use walk::back_edges;
