// What is asked of the graphs of a program before their words are planned: calls inlined, and diamonds as choices (specs/Rewritten.antt).
#![tactic(auto)]

mod filling;
pub mod options;
mod rewriting;

pub use options::FlowOptions;
pub use rewriting::rewritten;
