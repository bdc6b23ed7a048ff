// The reader of the word text: the program that a text spells, or its first faulty line. A line is read as the one thing that it
// can be, and that is spelled again and compared.
#![tactic(auto)]

mod before;
mod fault;
mod fields;
mod form;
pub mod laws;
mod operation_reader;
mod quoted;
mod reader;
mod steps;

pub use fault::WordsFault;
pub use reader::read;
