// The word machine: the numbers of machines, operations and words, what a word needs of a machine, and what a program of words
// does.
#![tactic(auto)]

pub mod laws;
pub mod operation;
pub mod program;
mod soundness;

pub use soundness::{is_sound_operation, sound};
