// What every layer of the compiler stands on: the operations on 32-bit numbers and what they give, how runs end and when
// two are the same, and lists that contracts see as lists.
#![tactic(auto)]

pub mod answer;
pub mod arithmetic;
pub mod laws;
pub mod listed;
pub mod outcome;
pub mod sizes;
