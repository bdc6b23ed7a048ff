// The steps of commands for which no pass is needed: runs of words with the boxes that a caller hands in, what is read for them, their
// output and the lines of their end; the commands `sim` and `check`; the command that a name names, the files that `compile` replaces,
// what `profile` counts with the graphs of any compiler, and the runs of `soak`.
#![tactic(auto)]

mod boxes;
mod check;
pub mod compiler;
pub mod counts;
mod loaded;
pub mod names;
pub mod rewritten;
mod run;
mod sim;
pub mod soak_run;
pub mod texts;

pub use boxes::{probes_of, timing_of};
pub use check::check_with;
pub use loaded::LoadedFiles;
pub use run::{RunEnd, no_box, no_probe, run_alone, run_loaded};
pub use sim::simulate_with;
