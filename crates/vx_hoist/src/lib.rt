// A pass over the graphs of a program: what each turn of a loop computes anew is computed before the loop too, and counters early in a
// turn, for vx_narrow to read there. The flow does what it did.
#![tactic(auto)]

mod early;
mod hoisted_flow;
pub mod laws;
mod search;

pub use hoisted_flow::{Hoisted, advance, hoist};
