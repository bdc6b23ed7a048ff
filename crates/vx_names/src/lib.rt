// The names that are known at a place of a source, each looked up in a table.
#![tactic(auto)]

mod local;
pub mod names;
mod table;
