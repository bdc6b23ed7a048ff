// The regions of a function, into which all of its blocks went, set one behind the other as one row of words over values; and the laws
// that this row does what the graph does.
#![tactic(auto)]

pub mod laws;
mod words;

pub use words::lay_out;
