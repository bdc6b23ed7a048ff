// The order of the blocks of a graph, and its loops.
#![tactic(auto)]

mod loops;
mod notes;
mod ordering;
mod stores;

pub use crate::loops::{entries_at, loop_at, loops_of, spine_of};
pub use crate::notes::Loops;
pub use crate::ordering::order_of;
