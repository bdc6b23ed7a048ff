// The plan of a trace that became a region.

use vx_base::listed::Listed;
use vx_dep::copies::{EdgeCopies, Rejoin};
use vx_dep::mode::Mode;
use vx_flow::graph::BlockId;
use vx_flow::trace::Placed;

/// How a trace became a region.
#[derive(Drop)]
pub struct TracePlan {
    /// The number of the function.
    pub function: u32,
    /// The blocks, in the order of the trace.
    pub blocks: Listed<BlockId>,
    /// How often its seed was passed.
    pub count: u64,
    /// `Free` where operations may pass its splits and joins.
    pub mode: Mode,
    /// The trace, the cluster and the word of each of its operations, and how many words there are.
    pub placed: Placed,
    /// The copies at its splits, in the order of the trace, and the empty cycles behind each.
    pub splits: Listed<EdgeCopies>,
    /// The copies at its joins, in their order.
    pub rejoins: Listed<Rejoin>,
}
