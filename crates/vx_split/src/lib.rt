// Compensation at splits: which operations of a placed trace are copied onto the edges that leave it, since they were placed behind
// the split.
#![tactic(auto)]

mod splits;

pub use splits::at_splits;
