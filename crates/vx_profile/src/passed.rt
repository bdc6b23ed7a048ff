// What a profile counts.

use vx_flow::graph::BlockId;

/// A block or an edge of a function.
#[derive(Clone, Copy)]
pub enum Passed {
    Block {
        function: u32,
        block: BlockId,
    },
    Edge {
        function: u32,
        from: BlockId,
        to: BlockId,
    },
}
