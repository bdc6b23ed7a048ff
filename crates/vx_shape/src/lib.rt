// The shape that later passes ask of graphs: its test, when a flow stays one of its program, passes over the graphs of a flow, and
// copies of flows with other graphs.
#![tactic(auto)]

pub mod copies;
pub mod laws;
pub mod origins;
pub mod passes;
pub mod shape_test;
