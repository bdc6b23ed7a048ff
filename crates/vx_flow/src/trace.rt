// Traces: the operations of some blocks that follow each other, as one list, and what a scheduler adds to them.

use crate::graph::{Array, BlockId, Edge, Op, Value};
use vx_base::listed::Listed;

/// An operation of a trace.
#[derive(Drop)]
pub enum TraceOp {
    /// An operation of a block.
    Plain(Op),
    /// A two-way exit inside the trace.
    Split {
        /// The branch value that is tested.
        test: Value,
        /// With which answer of the test the trace is left.
        leaves_when: bool,
        /// The edge by which it is left.
        edge: Edge,
        /// The values that are live at the end of that edge.
        live: Listed<Value>,
    },
}

/// A block of a trace, not its first, to which edges lead from outside the trace.
#[derive(Drop)]
pub struct Join {
    /// How many operations of the trace stand above it.
    pub place: u32,
    /// The block.
    pub block: BlockId,
    /// The edges from outside.
    pub edges: Listed<Edge>,
}

/// A trace.
#[derive(Drop)]
pub struct Trace {
    /// The number of the function.
    pub function: u32,
    /// The blocks, in the order of the trace.
    pub blocks: Listed<BlockId>,
    /// The operations, in the order of the trace.
    pub ops: Listed<TraceOp>,
    /// For each operation its cluster, where it was copied as compensation.
    pub fixed: Listed<Option<u32>>,
    /// The joins, by ascending place.
    pub joins: Listed<Join>,
    /// How many values the function's graph has. Numbers from there on are copies of values to clusters.
    pub values: u32,
    /// The arrays of the function's graph.
    pub arrays: Listed<Array>,
}

/// A trace with a cluster for each of its operations, and with the copies that they need.
#[derive(Drop)]
pub struct Clustered {
    pub trace: Trace,
    /// The cluster of each operation.
    pub clusters: Listed<u32>,
}

/// A clustered trace with a word for each of its operations.
#[derive(Drop)]
pub struct Placed {
    pub clustered: Clustered,
    /// The word of each operation, from 0.
    pub words: Listed<u32>,
    /// How many words there are.
    pub length: u32,
}

/// The clusters on which values stand: a finite map from values to clusters, as the list of what the values 0, 1, ..
/// have. A value beyond the list has no home.
#[derive(Drop)]
pub struct Homes {
    pub clusters: Listed<Option<u32>>,
}
