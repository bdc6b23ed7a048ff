// The plain run of the graphs of a program, block by block, as their meaning says: how it ends, what it prints, and how often
// each block and each edge is passed.
#![tactic(auto)]

mod blocks;
mod cells;
mod ends;
mod entering;
mod machine;
mod operations;
mod plain;
mod storage;
mod tally;

pub use ends::{Ending, Ran};
pub use plain::{Counted, count, run_plain};
