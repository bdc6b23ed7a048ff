// The last pass: the layouts of all functions, words over values, become one program of words over registers. Frames of the stack
// are vx_calls'.
#![tactic(auto)]

mod pieces;
mod program_words;
mod regions;

pub use program_words::finish;
