// Tests of graphs of blocks and regions as they begin, are traced and replaced, and of the registers of a layout's values: public calls
// with ample memory that no row of vx_rows shows, and rows worked out by hand. What is compiled always is what tests make and rest on.
#![tactic(auto)]

#[cfg(test)]
mod begins;
mod graphs;
mod inside;
#[cfg(test)]
mod layouts;
#[cfg(test)]
mod registers;
#[cfg(test)]
mod replacements;
#[cfg(test)]
mod traces;

pub use graphs::{counting, if_begun, without_else};
pub use inside::lead_inside;
