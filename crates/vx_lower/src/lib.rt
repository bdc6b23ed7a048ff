// From an accepted program to the graphs of its functions, which do what the program does (specs/FlowOf.antt).
#![tactic(auto)]

pub mod actions;
pub mod builder;
pub mod expressions;
pub mod laws;
mod lowering;
pub mod pieces;
pub mod prints;
pub mod seen;
pub mod sizes;
pub mod slots;
pub mod statements;
pub mod trap_blocks;

pub use lowering::lower;
