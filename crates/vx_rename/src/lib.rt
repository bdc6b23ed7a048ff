// Graphs whose values have other names, so that values that do not live at one time share one: the names, the laws that the flow
// does what it did, and the pass that makes a graph under names where they pass the test.
#![tactic(auto)]

mod bases;
mod colours;
mod kinds;
pub mod laws;
mod made_block;
mod made_graph;
mod made_ops;
mod moves;
pub mod names;
mod neighbours;
mod renamed_flow;
mod search;
mod shared_names;
mod table;
mod value_sets;
mod visits;
mod web_names;
mod webs;

pub use renamed_flow::rename;
pub use search::Room;
