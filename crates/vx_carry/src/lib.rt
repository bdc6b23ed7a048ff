// One planned word over values made into words over registers: what comes from slots of its frame before it, its
// operations, what goes to slots behind it, and its landings.
#![tactic(auto)]

pub mod carried_word;
mod lookups;
mod operations;
pub mod word_plan;
