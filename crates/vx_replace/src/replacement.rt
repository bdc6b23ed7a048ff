// A trace that becomes a region of a graph, with the blocks that are made of its copies. The parts of the graph that change are
// made before the first change, so that want of memory leaves it as it was. The clauses of `replace_trace` carry the promise.

ghost use Rattle.std.specs.Prelude.{◌≡◌, ◌+◌, ◌<◌, ◌^◌, [], IfOk, OnErr, OnOk, length};
ghost use Rattle.vx_mixed.specs.CanReplace.{CanReplace, ListsFit, WordsFit};
ghost use Rattle.vx_mixed.specs.Edges.{EdgesOf};
ghost use Rattle.vx_mixed.specs.Next.{next_mixed};
ghost use Rattle.vx_mixed.specs.Valid.{Valid};

use crate::edges::edges_after;
use crate::exchange::{push_region, put_trace};
use crate::made_edges::any_leads;
use crate::nodes::{push_made_nodes, push_old_nodes, push_old_regions};
use crate::origins::{push_made_origins, push_origins};
use crate::region::region_of;
use std::alloc::Global;
use std::mem::swap;
use vx_base::listed::Listed;
use vx_base::outcome::NoMemory;
use vx_flow::graph::Edge;
use vx_mixed::mixed::MixedGraph;
use vx_mixed::nodes::Nodes;
use vx_mixed::region::{Origin, Region};
use vx_mixed::replacement::Replacement;

/// What a replacement changes, but for the regions.
#[derive(Drop)]
struct Parts {
    nodes: Nodes,
    origins: Listed<Option<Origin>>,
    edges: Listed<Edge>,
}

/// A trace becomes a region of a graph that has these edges, as `Mixed::replace` says. The homes of the graph and of the
/// replacement change places.
pub(crate) fn replace_trace(
    alloc: Global,
    graph: &mut MixedGraph,
    edges: &mut Listed<Edge>,
    replacement: &mut Replacement,
) -> Result<(), NoMemory>
    requires valid { Valid graph.old }
    requires edges { EdgesOf graph.old edges.old }
    requires can { CanReplace graph.old replacement.old }
    ensures next { OnOk result (graph.new ≡ next_mixed graph.old replacement.old) }
    ensures unchanged { OnErr result (graph.new ≡ graph.old) }
    ensures edges { EdgesOf graph.new edges.new }
    ensures valid { Valid graph.new }
{
    if replacement.made.is_empty() {
        return put_trace(alloc, graph, edges, replacement);
    }
    let mut parts = no_parts(alloc);
    match make_all(alloc, &mut parts, graph, edges.as_slice(), replacement) {
        Ok(()) => {
            swap(&mut graph.nodes, &mut parts.nodes);
            swap(&mut graph.origins, &mut parts.origins);
            swap(&mut graph.homes, &mut replacement.homes);
            swap(edges, &mut parts.edges);
            drop(parts);
            Ok(())
        }
        Err(error) => {
            drop(parts);
            Err(error)
        }
    }
}

/// No parts, which take no memory.
fn no_parts(alloc: Global) -> Parts
    ensures nodes { result.nodes ≡ [] }
    ensures origins { result.origins ≡ [] }
{
    Parts {
        nodes: Nodes::new(alloc),
        origins: Listed::new(alloc),
        edges: Listed::new(alloc),
    }
}

/// Makes the parts after a replacement of a graph that has these edges, where there are none yet, and then puts the regions after
/// it into the graph. Without memory the graph stays as it was.
fn make_all(
    alloc: Global,
    parts: &mut Parts,
    graph: &mut MixedGraph,
    edges: &[Edge],
    replacement: &Replacement,
) -> Result<(), NoMemory>
    requires valid { Valid graph.old }
    requires edges { EdgesOf graph.old edges.now }
    requires can { CanReplace graph.old replacement.now }
    requires no_nodes { parts.old.nodes ≡ [] }
    requires no_origins { parts.old.origins ≡ [] }
    ensures nodes { OnOk result (parts.new.nodes ≡ (next_mixed graph.old replacement.now).nodes) }
    ensures origins { OnOk result (parts.new.origins ≡ (next_mixed graph.old replacement.now).origins) }
    ensures edges { OnOk result (EdgesOf (next_mixed graph.old replacement.now) parts.new.edges) }
    ensures regions { OnOk result (graph.new ≡ record graph.old { regions = (next_mixed graph.old replacement.now).regions }) }
    ensures unchanged { OnErr result (graph.new ≡ graph.old) }
{
    make_parts(alloc, parts, graph, edges, replacement)?;
    put_regions(alloc, graph, replacement)?;
    Ok(())
}

/// Makes the parts after a replacement of a graph that has these edges, where there are none yet. Where there would be 2^32
/// blocks or more that is want of memory.
fn make_parts(
    alloc: Global,
    parts: &mut Parts,
    graph: &MixedGraph,
    edges: &[Edge],
    replacement: &Replacement,
) -> Result<(), NoMemory>
    requires valid { Valid graph.now }
    requires edges { EdgesOf graph.now edges.now }
    requires can { CanReplace graph.now replacement.now }
    requires no_nodes { parts.old.nodes ≡ [] }
    requires no_origins { parts.old.origins ≡ [] }
    ensures few { OnOk result (length graph.now.nodes + length replacement.now.made < 2 ^ 32) }
    ensures nodes { OnOk result (parts.new.nodes ≡ (next_mixed graph.now replacement.now).nodes) }
    ensures origins { OnOk result (parts.new.origins ≡ (next_mixed graph.now replacement.now).origins) }
    ensures edges { OnOk result (EdgesOf (next_mixed graph.now replacement.now) parts.new.edges) }
{
    let made = replacement.made.as_slice();
    let blocks = graph.nodes.len() as u64 + made.len() as u64;
    if blocks > u64::from(u32::MAX) {
        return Err(NoMemory);
    }
    push_old_nodes(alloc, &mut parts.nodes, graph, replacement)?;
    push_made_nodes(alloc, &mut parts.nodes, made)?;
    push_origins(alloc, &mut parts.origins, graph.origins.as_slice())?;
    let ops = replacement.trace.ops.as_slice();
    push_made_origins(alloc, &mut parts.origins, ops, made)?;
    parts.edges = edges_after(alloc, graph, edges, replacement)?;
    Ok(())
}

/// The edges of the regions so far go to their new ends, and the region of the trace stands behind them. The regions stay where
/// they are unless one is left by an edge on which a block is made. Without memory all stays as it was.
fn put_regions(
    alloc: Global,
    graph: &mut MixedGraph,
    replacement: &Replacement,
) -> Result<(), NoMemory>
    requires few { length graph.old.nodes + length replacement.now.made < 2 ^ 32 }
    requires lists { ListsFit replacement.now }
    requires words { WordsFit replacement.now }
    ensures next { OnOk result (graph.new ≡ record graph.old { regions = (next_mixed graph.old replacement.now).regions }) }
    ensures unchanged { OnErr result (graph.new ≡ graph.old) }
{
    if !any_leads(replacement.made.as_slice(), graph.regions.as_slice()) {
        return push_region(alloc, graph, replacement);
    }
    let mut regions = Listed::new(alloc);
    match push_regions(alloc, &mut regions, graph, replacement) {
        Ok(()) => {
            swap(&mut graph.regions, &mut regions);
            drop(regions);
            Ok(())
        }
        Err(error) => {
            drop(regions);
            Err(error)
        }
    }
}

/// Makes the regions after a replacement, where there are none yet.
fn push_regions(
    alloc: Global,
    regions: &mut Listed<Region>,
    graph: &MixedGraph,
    replacement: &Replacement,
) -> Result<(), NoMemory>
    requires few { length graph.now.nodes + length replacement.now.made < 2 ^ 32 }
    requires lists { ListsFit replacement.now }
    requires words { WordsFit replacement.now }
    requires none { regions.old ≡ [] }
    ensures { IfOk result (λ _. regions.new ≡ (next_mixed graph.now replacement.now).regions) }
{
    push_old_regions(alloc, regions, graph, replacement)?;
    let region = region_of(alloc, graph, replacement)?;
    regions.push(region)?;
    Ok(())
}
