// Where the operations of a clustered trace are placed.
#![tactic(auto)]

mod full_rows;
mod height_order;
pub mod laws;
mod list_schedule;
mod ready;
mod rows;

pub use list_schedule::schedule;
