// Where the values of a function that is laid out as words are kept: in registers, or in slots of its frame.
#![tactic(auto)]

mod allocation;
mod busy;
mod hulls;
pub mod liveness;
pub mod map;
pub mod nodes;
mod scan;
mod spans;
pub mod touches;

pub use allocation::{home_in, registers};
