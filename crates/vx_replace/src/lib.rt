// The graph of a function of which some blocks are words already and others are blocks still, as callers hold it: it begins as
// blocks alone, and traces of it become regions.
#![tactic(auto)]

mod begun_lists;
mod edges;
mod exchange;
pub mod function;
mod joins;
mod made_edges;
mod nodes;
mod origins;
mod region;
mod replacement;
mod trace;

pub use function::Mixed;
