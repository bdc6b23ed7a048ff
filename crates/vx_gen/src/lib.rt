// Makes sources of the language from a seed and a size, for trials of the compiler.
#![tactic(auto)]

mod draws;
mod forms;
mod source;

pub use source::program;
