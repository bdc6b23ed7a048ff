// Laws of finished programs, with no code: words over registers do what the layouts do that they were made from, for every input and
// every landing of writes (two states are tied where they hold the same values), and each planned word stands where the plan says; every
// word fits the machine, the program is sound, and no path reads or writes a register that is hot, that is, while an earlier write of it
// is in flight.
#![tactic(auto)]

pub mod heat;
pub mod laws;
