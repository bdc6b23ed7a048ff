// Moving operations up over the bounds of blocks: the laws, the tests in code, the graphs of a program with operations moved, and the
// search for what makes the turns of loops shorter.
#![tactic(auto)]

mod climb;
mod costs;
pub mod known;
pub mod laws;
pub mod lift_test;
pub mod lifted_graph;
mod names;
mod plan;
pub mod raised_flow;
mod search;
mod sketch;
mod steps;
mod turns;
pub mod units;

pub use crate::raised_flow::raise;
pub use crate::units::Units;
