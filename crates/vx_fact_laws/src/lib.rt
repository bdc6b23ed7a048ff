// Laws of facts: they are abstract states, and what is made of them behind operations, on sides of splits and over calls is sound.
#![tactic(auto)]

pub mod laws;
