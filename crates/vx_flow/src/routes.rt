// Routes: ways from a node of a graph to others, each with the values that it reads and writes on the way. A block is a
// route; so is each way through a region of words from where it is entered to where it is left.

ghost use Rattle.std.specs.Prelude.{◌≡◌, IfOk};
ghost use Rattle.vx_flow.specs.Sound.{targets_of};

use crate::graph::{BlockId, Exit, Value};
use std::alloc::Global;
use vx_base::listed::{Listed, copied};
use vx_base::outcome::NoMemory;

/// A value that is read or written on a route.
#[derive(Clone, Copy)]
pub struct Touch {
    /// The value.
    pub value: Value,
    /// Whether it is read; else it is written.
    pub reads: bool,
}

/// A route.
#[derive(Drop)]
pub struct Route {
    /// The node where it begins.
    pub from: BlockId,
    /// The nodes to which it leads.
    pub to: Listed<BlockId>,
    /// What is read and written on the way, in order.
    pub touches: Listed<Touch>,
}

/// The blocks to which an exit leads.
pub fn targets_of(alloc: Global, exit: &Exit) -> Result<Listed<BlockId>, NoMemory>
    ensures { IfOk result (λ targets. targets ≡ targets_of exit.now) }
{
    match exit {
        Exit::Goto(to) | Exit::Call { next: to, .. } => Ok(copied(alloc, &[*to])?),
        Exit::Split { yes, no, .. } => Ok(copied(alloc, &[*yes, *no])?),
        Exit::Return(_) | Exit::Ends(_) => Ok(Listed::new(alloc)),
    }
}
