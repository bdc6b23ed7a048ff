// The simulator of the word machine, with the boxes that its caller hands in: a timing, which tells when results
// land, and probes, which are shown each word that took effect.
#![tactic(auto)]

mod effects;
mod ended;
mod flight;
mod flights;
pub mod laws;
mod leads;
mod memory;
mod prints;
mod registers;
mod ring;
mod shape;
mod sim;
mod state;
mod steps;
mod stuck;

pub use ended::Ended;
pub use sim::Sim;
