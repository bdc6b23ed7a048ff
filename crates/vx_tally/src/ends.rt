// How a run of graphs ends, and how a block is left.

use vx_base::listed::{Bytes, Listed};
use vx_base::outcome::Trap;
use vx_flow::graph::{BlockId, Value};

/// How a run ends.
#[derive(Clone, Copy, PartialEq, Eq)]
pub enum Ending {
    /// `main` returned this result.
    Ends(i32),
    /// It was ended by a trap.
    Traps(Trap),
    /// It came to what has no meaning, as no run of a lowered program does. What it printed is then not said.
    Wrong,
}

/// What a run within a bound came to.
#[derive(Drop)]
pub struct Ran {
    /// How it ended; `None` where it goes on.
    pub ending: Option<Ending>,
    /// The output.
    pub out: Bytes,
}

/// How a block is left.
#[derive(Drop)]
pub enum Left {
    /// By an edge to this block.
    Arrives(BlockId),
    /// By a call.
    Calls {
        function: u32,
        arguments: Listed<i32>,
        result: Option<Value>,
        next: BlockId,
    },
    /// By a return of this number.
    Leaves(i32),
    /// By a trap.
    Stops(Trap),
    /// It has no meaning.
    Wrong,
}
