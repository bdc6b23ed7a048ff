// Compensation at joins: at which word of a placed trace an edge into its middle enters, and which operations are copied onto that
// edge.
#![tactic(auto)]

mod joins;

pub use joins::at_joins;
