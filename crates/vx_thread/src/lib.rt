// The graphs of a program with edges that go straight past a test which they decide (jump threading). A block that has little but its
// test is copied to the ends of the blocks that lead to it, and what is known there decides each copy. The flow does what it did.
#![tactic(auto)]

pub mod laws;
mod search;
mod threaded_flow;

pub use crate::threaded_flow::thread;
