// Tests of the traces of a function, on rows worked out by hand: which trace is picked, the words in which its operations stand, what
// is copied at its splits and joins, and the text of the counts by which traces are picked. What is compiled always is what tests
// rest on.
#![tactic(auto)]

mod begins;
#[cfg(test)]
mod next_index;
#[cfg(test)]
mod passes;
#[cfg(test)]
mod picks;
#[cfg(test)]
mod profiles;
#[cfg(test)]
mod shapes;
#[cfg(test)]
mod steps;
#[cfg(test)]
mod steps_run;

pub use begins::{begun, can_begin};
