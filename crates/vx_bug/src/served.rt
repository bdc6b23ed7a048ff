// Copies of values that serve on a cluster.

use vx_flow::graph::Value;

/// A copy that serves.
#[derive(Clone, Copy)]
pub struct Served {
    /// The value.
    pub value: Value,
    /// The cluster on which its copy stands.
    pub cluster: u32,
}
