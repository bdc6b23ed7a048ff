// Claims, the facts of the analysis: where numbers lie, what their low bits are, what values hold, which words of arrays are known;
// what operations and the sides of splits make of them; and operations in another form that by them does the same.
#![tactic(auto)]

pub mod access;
pub mod behind;
pub mod claim;
pub mod effects;
pub mod fact;
pub mod fact_list;
pub mod forms;
pub mod intervals;
pub mod known;
mod marks;
pub mod residues;
pub mod sums;
pub mod update;
