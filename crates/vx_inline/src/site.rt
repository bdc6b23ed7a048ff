// Where a call stands.

use vx_flow::graph::BlockId;

/// A block that calls, or may call.
#[derive(Clone, Copy)]
pub struct Site {
    /// The number of its function.
    pub function: u32,
    /// Its number in the graph of that function.
    pub block: BlockId,
}
