// Whether a graph, and the graphs of a program, are sound: tests without memory, and one by tables of the values that are places of
// arrays or bases of them.
#![tactic(auto)]

mod arguments;
mod bases;
mod named;
mod origins;
mod places;
mod program_names;
mod sound;
mod soundness;
mod witnesses;

pub use sound::is_sound;
pub use soundness::{flow_is_sound, graph_is_sound};
