// Index forms: what an access of a trace names, as a sum of symbols with factors, and whether two accesses can name
// one word of memory. The rules stand in docs/COMPILING.md, after Ellis, 1985.
#![tactic(auto)]

mod difference;
pub mod form;
mod known_values;
pub mod laws;
mod linear;
mod passed;
mod places;
mod trace_forms;

pub use difference::differs;
pub use trace_forms::forms;
