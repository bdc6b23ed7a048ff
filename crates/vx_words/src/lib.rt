// The word text: how a program of words is spelled as a text. vx_reader reads such texts.
#![tactic(auto)]

pub mod operation_text;
pub mod program_text;

pub use program_text::write;
