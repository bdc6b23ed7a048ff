// What the assignment of clusters gives.

use vx_base::listed::Listed;
use vx_flow::trace::{Clustered, Homes};

/// The clusters of the operations of a trace.
#[derive(Drop)]
pub struct Clusters {
    /// The places of the operations in the order in which they took their clusters.
    pub order: Listed<u32>,
    /// For each operation of the trace the cycle at which its result is expected.
    pub estimates: Listed<u32>,
    /// For each operation of the trace its cluster.
    pub chosen: Listed<u32>,
    /// The trace with the copies that its operations need.
    pub clustered: Clustered,
    /// The homes by then.
    pub homes: Homes,
}
