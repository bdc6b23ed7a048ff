// A function of which some blocks are words already and others are blocks still: what it means, what a step from one such graph
// to the next keeps, which values are live in it, and what its layout as one row of words is.
#![tactic(auto)]

pub mod layout;
pub mod mixed;
pub mod nodes;
pub mod region;
pub mod replacement;
pub mod routes;
pub mod rows;
mod touches;
