// What stands in place of blocks that were compiled: words that are issued one after the other, in which operations stand
// side by side, with the ways out of them.

use vx_base::listed::Listed;
use vx_flow::graph::{Block, BlockId, Edge, Exit, Op, Value};

/// What stands in a word of a region.
#[derive(Clone, Copy)]
pub enum Item {
    /// An operation, and the cluster on which it is done.
    Plain {
        op: Op,
        cluster: u32,
    },
    /// A way out: the edge is taken where the test has this answer. Of several that are taken in a word the first wins.
    Split {
        test: Value,
        leaves_when: bool,
        edge: Edge,
        /// The empty cycles after the word, until nothing is in flight.
        drain: u32,
    },
}

/// A region: the words of a trace.
#[derive(Drop)]
pub struct Region {
    /// The blocks of the trace, in its order.
    pub blocks: Listed<BlockId>,
    /// The words. The items of a word stand in the order of the trace.
    pub words: Listed<Listed<Item>>,
    /// The last block of the trace, whose exit comes after the last word.
    pub from: BlockId,
    /// That exit.
    pub last: Exit,
    /// The empty cycles before it, until nothing is in flight.
    pub drain: u32,
}

/// What an edge to a block comes to.
#[derive(Drop)]
pub enum Node {
    /// A block that is in no region yet.
    Unused(Block),
    /// A word of a region: its first, or one behind all that stands above a join.
    Enters { region: u32, word: u32 },
    /// Nothing: the block is inside a region, and no edge goes to it.
    Inner,
}

/// Where the operations of a made block come from.
#[derive(Drop)]
pub struct Origin {
    /// The edge on which the block was made.
    pub edge: Edge,
    /// Whether the edge leaves a region by a split; else it enters one by a join.
    pub leaves: bool,
    /// The cluster that each of its operations had.
    pub clusters: Listed<u32>,
}

/// A block that is to be made: copies of operations on an edge.
#[derive(Drop)]
pub struct Made {
    pub edge: Edge,
    pub ops: Listed<Op>,
    /// The cluster that each of them has.
    pub clusters: Listed<u32>,
}
