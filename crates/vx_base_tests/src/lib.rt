// Tests of the base and of the word machine with its text, its descriptions and its simulator: public calls with ample
// memory that no row of vx_rows shows, and rows worked out by hand. What is compiled always is what the tests make and rest on.
#![tactic(auto)]

#[cfg(test)]
mod arithmetic;
#[cfg(test)]
mod boxes;
#[cfg(test)]
mod branches;
#[cfg(test)]
mod descriptions;
mod fields;
#[cfg(test)]
mod files;
mod programs;
#[cfg(test)]
mod rooms;
#[cfg(test)]
mod simulators;
#[cfg(test)]
mod sinks;
#[cfg(test)]
mod soundness;
#[cfg(test)]
mod texts;
#[cfg(test)]
mod words;

pub use fields::fields_of;
pub use programs::{program, word};
