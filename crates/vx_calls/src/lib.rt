// The words of calls, returns, entries and of a program's start; and what stands in memory: the globals, and in the frames of functions
// the link, the slots of values and the functions' own arrays, with what is saved there round calls.
#![tactic(auto)]

pub mod addresses;
pub mod call_words;
pub mod frames;
mod lookups;
mod pauses;
mod saves;
