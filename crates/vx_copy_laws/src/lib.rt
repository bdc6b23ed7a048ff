// Laws of copies: which copies of values an operation of a trace needs, and that these stand before it and no others.
#![tactic(auto)]

pub mod laws;
