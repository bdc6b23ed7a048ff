// What was decided when a program was compiled.

use vx_base::listed::Listed;
use vx_region::TracePlan;
use vx_target::finished::TracePlaces;

/// How a program was compiled: its traces, function by function and in each in the order in which they became regions.
#[derive(Drop)]
pub struct Plan {
    /// The traces.
    pub traces: Listed<TracePlan>,
    /// For each trace where its words stand in the program of words.
    pub places: Listed<TracePlaces>,
    /// How many values are kept in slots, over all functions.
    pub spilled: u32,
    /// How many operations were copied, counted for each edge.
    pub copies: u32,
}
