// The boxes that a caller hands to a simulation: timings, which tell when results land, and probes, which watch.
#![tactic(auto)]

mod event;
mod probe;
mod timing;

pub use event::Event;
pub use probe::{Probe, UnitUse, WordCount};
pub use timing::{Cyclic, Early, Late, Timing};
