// The check of a parsed source: its first fault S5 to S13, else the lowest limit L3 to L8 that is over, or the program that it is.
#![tactic(auto)]

mod arguments;
mod checker;
mod expressions;
mod formats;
mod items;
mod kinds;
pub mod laws;
mod memory;
mod program;
mod statements;

pub use checker::{check, discard};
