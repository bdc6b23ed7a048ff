// A plain interpreter of programs, for tests and teaching: recursive over the tree, with a store of lists. It comes to what the
// meaning of the source says; the compiler does not use it.
#![tactic(auto)]

mod active;
pub mod interpreter;
mod operators;
mod store;
