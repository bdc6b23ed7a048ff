// The compiler: from an accepted program to its words and the plan of them.
#![tactic(auto)]

mod graphs;
pub mod laws;
mod layouts;
mod ranges;
mod words;
mod written_again;

pub use graphs::{counted_flow_of, flow_of, planned_flow_of, planned_with, raised_for};
pub use words::{compile, compile_flow, compile_sized, compile_with};
