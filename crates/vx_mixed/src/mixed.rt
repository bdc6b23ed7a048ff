// The graph of a function of which some blocks are words already and others are blocks still. An edge goes to a block's
// number, whatever stands there by then. What such a graph does is defined in specs/Meaning.antt.

use crate::nodes::Nodes;
use crate::region::{Origin, Region};
use vx_base::listed::Listed;
use vx_flow::graph::{Array, Bank, BlockId, Edge, Value};
use vx_flow::trace::Homes;

/// A graph of blocks and regions.
#[derive(Drop)]
pub struct MixedGraph {
    /// The number of the function.
    pub function: u32,
    /// What stands at each block's number.
    pub nodes: Nodes,
    /// The regions, in the order in which they were made.
    pub regions: Listed<Region>,
    /// For each block where it was made, if it is none of the function's graph.
    pub origins: Listed<Option<Origin>>,
    /// The headers of the function's graph.
    pub headers: Listed<BlockId>,
    /// The back edges of the function's graph.
    pub back: Listed<Edge>,
    /// The bank of each value of the function's graph. Numbers from there on are copies of values to clusters.
    pub banks: Listed<Bank>,
    /// The values that hold the arguments at the entry.
    pub parameters: Listed<Value>,
    /// The arrays: the globals, then the function's own.
    pub arrays: Listed<Array>,
    /// The clusters on which values stand so far.
    pub homes: Homes,
}
