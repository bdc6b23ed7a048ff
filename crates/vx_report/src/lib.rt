// The plan of a program, and its report: how each trace was picked and placed, what was copied at its splits and joins, and where
// its words stand, as a text.
#![tactic(auto)]

mod lines;
pub mod plan;
mod text;

pub use plan::Plan;
pub use text::report;
