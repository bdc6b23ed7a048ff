// Laws of the choice of clusters, each the clause of a function that does nothing.

ghost use Rattle.vx_bug.specs.ClustersExample.{ClustersExample};
ghost use Rattle.vx_bug.specs.FirstFree.{FirstIsFree};

/// The worked rows of docs/COMPILING.md: orders, estimates, homes and copies.
#[tactic(auto, using(crate::proofs::ExampleRows::example))]
pub fn clusters_example_law()
    ensures { ClustersExample }
{}

/// The cycle in which an operation would be issued on a cluster has a slot and a unit left, and none before it has, from the one
/// on in which its operands are there.
#[tactic(auto, using(crate::proofs::FirstCycle::first_is_free_law))]
pub fn first_is_free_law()
    ensures { FirstIsFree }
{}
