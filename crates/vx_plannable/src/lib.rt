// Traces that are planned by themselves, without a function in which they are picked: a test that shows the conditions of planning,
// and the calls of planning behind it.
#![tactic(auto)]

mod plan;
mod plannable;

pub use plan::{clustered, placed};
pub use plannable::{are_there, is_plannable};
