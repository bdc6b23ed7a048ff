// The names that the values of a graph get. A value may have one name here and another there, and names are shared.

use vx_base::listed::Listed;
use vx_flow::graph::{Bank, Value};

/// An old value and the value of the new graph at which it stands.
#[derive(Clone, Copy)]
pub struct Name {
    /// The old value.
    pub old: Value,
    /// The value of the new graph.
    pub new: Value,
}

/// The names in a block.
#[derive(Drop)]
pub struct BlockNames {
    /// The old values that stand at the start of the block, and where.
    pub start: Listed<Name>,
    /// For each operation the name of what it writes, and any number where it writes nothing; none where it is left out, as one
    /// may be that does nothing but write.
    pub written: Listed<Option<Value>>,
    /// The name of the result of the call at the end of the block.
    pub result: Value,
}

/// The names in a graph.
#[derive(Drop)]
pub struct GraphNames {
    /// The names in each block.
    pub blocks: Listed<BlockNames>,
    /// The bank of each value of the new graph.
    pub banks: Listed<Bank>,
    /// The values of the new graph that hold the arguments at the entry.
    pub parameters: Listed<Value>,
}
