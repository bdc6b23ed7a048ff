// Tables of rows, and marks of places.
#![tactic(auto)]

pub mod rows;
