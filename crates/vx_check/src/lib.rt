// The check of a program of words: whether on every static path each word fits a machine and reads no register while a write to it
// may be in flight (specs/Checked.antt).
#![tactic(auto)]

mod in_flight;
pub mod laws;
mod leads;
mod reached;
mod rounds;
mod strictness;
mod verdict;

pub use strictness::check;
pub use verdict::Verdict;
