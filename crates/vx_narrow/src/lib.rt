// A pass over the graphs of a program, by checked facts: index checks and splits that are decided go, results and loaded words are
// read again, and products by small numbers are cheap. The flow does what it did. What is claimed at the starts of blocks and given of
// parameters is checked here: facts that pass hold wherever a block is entered.
#![tactic(auto)]

pub mod block_pass;
pub mod checks;
pub mod fact_laws;
pub mod given;
pub mod laws;
pub mod narrowed_flow;
pub mod near_place;
pub mod one_mask;
pub mod one_product;

pub use crate::narrowed_flow::{narrow, narrow_inside};
