// Loop unrolling on the tree of a program.
#![tactic(auto)]

mod expressions;
pub mod laws;
mod memory;
mod parts;
pub mod program;
mod room;
pub mod size;
mod turns;
mod unrolling;
mod words;
