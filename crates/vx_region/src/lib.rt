// Traces that become regions: picked by the counts of a profile, placed in words, with the copies at their splits and joins, one
// after the other until no block is left; and that this keeps the meaning. The laws of copies between clusters stand here too.
#![tactic(auto)]

pub mod budget;
pub mod copies;
pub mod laws;
mod made;
mod owed;
mod placed_trace;
mod step;
pub mod trace_plan;
mod waits;

pub use budget::Budget;
pub use step::{Regions, Step, all_regions, replace_one};
pub use trace_plan::TracePlan;
