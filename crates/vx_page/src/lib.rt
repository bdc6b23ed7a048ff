// Graphs and traces as texts: an operation as a line, a graph block by block, a trace word by word, and what is told of each operation.
// Whatever stands in a source goes through `Page::source`, so that it never ends an element of a page.
#![tactic(auto)]

pub mod declarations;
pub mod escaped;
pub mod facts;
pub mod graphs;
pub mod notes;
pub mod operations;
pub mod page;
pub mod plain;
pub mod spots;
pub mod view;
