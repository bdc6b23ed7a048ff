// Laws of seats: where the rows of storage stand in memory.
#![tactic(auto)]

pub mod laws;
