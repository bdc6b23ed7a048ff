// A compiled program as one page of HTML: its source and machine, its blocks, and its traces word by word, with what each operation waits
// for, what is in flight, and where a run spends its cycles.
#![tactic(auto)]

pub mod against;
pub mod bars;
pub mod blocks;
pub mod head;
pub mod loads;
pub mod passes;
mod style;
pub mod times;
pub mod traces;
pub mod units;
pub mod whys;
pub mod words;
