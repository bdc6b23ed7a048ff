// Laws of replacements in graphs of blocks and regions: which keep the meaning, whenever writes land; graphs of one meaning may
// stand in place of each other. Laws of cycles: each passes a header, also where blocks became regions, so that picked blocks can be
// traced.
#![tactic(auto)]

pub mod cycles;
pub mod laws;
