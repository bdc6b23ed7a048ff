// Graphs, programs of graphs and traces, written as constants, for the crates of tests: what is made is exactly what the constant
// says.
#![tactic(auto)]

mod constants;
mod shapes;
mod traces;
mod worked;

pub use constants::{graph, op, program};
pub use shapes::{Act, Part, Shape, Way, Whole};
pub use traces::{Step, trace};
pub use worked::{BANKS, WITHOUT_ELSE};
