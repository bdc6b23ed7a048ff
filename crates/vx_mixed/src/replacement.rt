// What a replacement is made of. What the graph is after it is defined in specs/Next.antt, and what is asked of its parts in
// specs/CanReplace.antt.

use crate::region::Made;
use vx_base::listed::Listed;
use vx_flow::trace::{Homes, Trace};

/// A trace that becomes a region.
#[derive(Drop)]
pub struct Replacement {
    /// The trace, with the copies of values that its clusters need.
    pub trace: Trace,
    /// The cluster of each of its operations.
    pub clusters: Listed<u32>,
    /// The word of each of its operations.
    pub words: Listed<u32>,
    /// How many words there are.
    pub length: u32,
    /// The empty cycles after each of its splits.
    pub drains: Listed<u32>,
    /// The empty cycles after the last word.
    pub last_drain: u32,
    /// For each of its joins the word behind all that stands above it.
    pub rejoins: Listed<u32>,
    /// The blocks that are made.
    pub made: Listed<Made>,
    /// The clusters on which values stand by then.
    pub homes: Homes,
}
