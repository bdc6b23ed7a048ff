// Delays between the operations of a trace, their heights, and the definition of what a placement owes, which vx_split and vx_join
// meet.
#![tactic(auto)]

mod chains;
pub mod copies;
mod deps;
mod earlier;
mod heights;
mod keys;
pub mod laws;
mod links;
pub mod mode;
mod near;
mod rows;
mod sights;
mod tables;
pub mod traits;

pub use deps::{Deps, pairs};
pub use earlier::Earlier;
