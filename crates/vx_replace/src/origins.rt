// Where made blocks come from, after a replacement. Each call fails only for want of memory.

ghost use Rattle.std.specs.Prelude.{◌≡◌, ◌++◌, ◌∷◌, [], IfOk, map};
ghost use Rattle.vx_mixed.specs.Next.{is_split_edge, made_origin};

use std::alloc::Global;
use vx_base::listed::Listed;
use vx_base::outcome::NoMemory;
use vx_flow::graph::Edge;
use vx_flow::trace::TraceOp;
use vx_mixed::region::{Made, Origin};

/// The origins of the blocks so far.
pub(crate) fn push_origins(
    alloc: Global,
    after: &mut Listed<Option<Origin>>,
    origins: &[Option<Origin>],
) -> Result<(), NoMemory>
    ensures { IfOk result (λ _. after.new ≡ after.old ++ origins.now) }
{
    for origin in origins {
        let copy = copied_origin(alloc, origin)?;
        after.push(copy)?;
    }
    Ok(())
}

fn copied_origin(alloc: Global, origin: &Option<Origin>) -> Result<Option<Origin>, NoMemory>
    ensures { IfOk result (λ copy. copy ≡ origin.now) }
{
    match origin {
        None => Ok(None),
        Some(origin) => {
            let clusters = copied_clusters(alloc, origin.clusters.as_slice())?;
            Ok(Some(Origin {
                edge: origin.edge,
                leaves: origin.leaves,
                clusters,
            }))
        }
    }
}

fn copied_clusters(alloc: Global, clusters: &[u32]) -> Result<Listed<u32>, NoMemory>
    ensures { IfOk result (λ copy. copy ≡ clusters.now) }
{
    Ok(Listed::from_vec(clusters.to_vec(alloc)?)?)
}

/// The origins of the blocks that are made.
pub(crate) fn push_made_origins(
    alloc: Global,
    after: &mut Listed<Option<Origin>>,
    ops: &[TraceOp],
    made: &[Made],
) -> Result<(), NoMemory>
    ensures { IfOk result (λ _. after.new ≡ after.old ++ map (made_origin ops.now) made.now) }
{
    for block in made {
        let clusters = copied_clusters(alloc, block.clusters.as_slice())?;
        after.push(Some(Origin {
            edge: block.edge,
            leaves: is_split_edge(ops, block.edge),
            clusters,
        }))?;
    }
    Ok(())
}

/// Whether a split of the trace leaves by an edge.
fn is_split_edge(ops: &[TraceOp], edge: Edge) -> bool
    ensures { result ≡ is_split_edge ops.now edge }
{
    for op in ops {
        if splits_on(op, edge) {
            return true;
        }
    }
    false
}

fn splits_on(op: &TraceOp, edge: Edge) -> bool
    ensures { result ≡ is_split_edge (op.now ∷ []) edge }
{
    match op {
        TraceOp::Plain(_) => false,
        TraceOp::Split { edge: off, .. } => *off == edge,
    }
}
