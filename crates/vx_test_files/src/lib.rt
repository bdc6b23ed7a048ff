// What tests and rows stand on: files in memory, and the lines of a text.
#![tactic(auto)]

pub mod depot;
pub mod laws;
pub mod lines;
