// A trace that becomes a region where no block is made: no edge goes elsewhere, so that the nodes of its blocks alone change,
// in the graph itself. The clauses of `put_trace` carry the promise.

ghost use Rattle.std.specs.Prelude.{◌≡◌, ◌+◌, ◌<◌, ◌^◌, [], ◌∷◌, ◌++◌, ℕ, OnErr, OnOk, length};
ghost use Rattle.vx_flow.specs.declared.trace.Join.{Join};
ghost use Rattle.vx_flow.specs.Effects.{IsIn};
ghost use Rattle.vx_mixed.specs.CanReplace.{CanReplace, ListsFit, WordsFit};
ghost use Rattle.vx_mixed.specs.Edges.{EdgesOf};
ghost use Rattle.vx_replace.specs.Exchanged.{exchanged, with_inner, with_rejoins};
ghost use Rattle.vx_mixed.specs.Next.{new_region, next_mixed};
ghost use Rattle.vx_mixed.specs.Valid.{Valid};

use crate::edges::outer_edges;
use crate::region::region_of;
use std::alloc::Global;
use std::mem::swap;
use vx_base::listed::Listed;
use vx_base::outcome::NoMemory;
use vx_flow::graph::{BlockId, Edge};
use vx_flow::trace::Join;
use vx_mixed::mixed::MixedGraph;
use vx_mixed::nodes::Nodes;
use vx_mixed::region::Node;
use vx_mixed::replacement::Replacement;

/// Puts a trace into a graph that has these edges as a region, where no block is made: the work is that of the trace, and of one
/// pass over the edges where the trace has more than one block. The homes of the graph and of the replacement change places.
/// Without memory all stays as it was.
pub(crate) fn put_trace(
    alloc: Global,
    graph: &mut MixedGraph,
    edges: &mut Listed<Edge>,
    replacement: &mut Replacement,
) -> Result<(), NoMemory>
    requires valid { Valid graph.old }
    requires edges { EdgesOf graph.old edges.old }
    requires can { CanReplace graph.old replacement.old }
    requires none { replacement.old.made ≡ [] }
    ensures next { OnOk result (graph.new ≡ next_mixed graph.old replacement.old) }
    ensures unchanged { OnErr result (graph.new ≡ graph.old) }
    ensures edges { EdgesOf graph.new edges.new }
    ensures valid { Valid graph.new }
{
    let nodes = graph.nodes.len();
    if replacement.trace.blocks.len() < 2 {
        return put_region(alloc, graph, replacement);
    }
    let blocks = replacement.trace.blocks.as_slice();
    let kept = outer_edges(alloc, nodes, edges.as_slice(), blocks)?;
    put_region(alloc, graph, replacement)?;
    *edges = kept;
    Ok(())
}

/// Puts a trace into the graph as a region, where no block is made. All memory is taken before the first change.
fn put_region(
    alloc: Global,
    graph: &mut MixedGraph,
    replacement: &mut Replacement,
) -> Result<(), NoMemory>
    requires few { length graph.old.nodes + length replacement.old.made < 2 ^ 32 }
    requires valid { Valid graph.old }
    requires can { CanReplace graph.old replacement.old }
    requires none { replacement.old.made ≡ [] }
    ensures next { OnOk result (graph.new ≡ next_mixed graph.old replacement.old) }
    ensures unchanged { OnErr result (graph.new ≡ graph.old) }
{
    let number = graph.regions.len() as u32;
    push_region(alloc, graph, replacement)?;
    exchange(&mut graph.nodes, number, replacement);
    swap(&mut graph.homes, &mut replacement.homes);
    Ok(())
}

/// Puts the region of a trace behind the others.
pub(crate) fn push_region(
    alloc: Global,
    graph: &mut MixedGraph,
    replacement: &Replacement,
) -> Result<(), NoMemory>
    requires few { length graph.old.nodes + length replacement.now.made < 2 ^ 32 }
    requires lists { ListsFit replacement.now }
    requires words { WordsFit replacement.now }
    ensures next { OnOk result (graph.new ≡ record graph.old { regions = graph.old.regions ++ new_region graph.old replacement.now ∷ [] }) }
    ensures unchanged { OnErr result (graph.new ≡ graph.old) }
{
    let region = region_of(alloc, graph, replacement)?;
    graph.regions.push(region)?;
    Ok(())
}

/// The trace's blocks are entered at the first word of the region of this number and behind their joins.
fn exchange(nodes: &mut Nodes, region: u32, replacement: &Replacement)
    requires blocks { (b : ℕ) → IsIn b replacement.now.trace.blocks → b < length nodes.old }
    requires joins { (j : Join) → IsIn j replacement.now.trace.joins → j.block < length nodes.old }
    requires rejoins { length replacement.now.rejoins ≡ length replacement.now.trace.joins }
    ensures { nodes.new ≡ exchanged region replacement.now nodes.old }
{
    if let [first, others @ ..] = replacement.trace.blocks.as_slice() {
        nodes.set(*first as usize, Node::Enters { region, word: 0 });
        put_inner(nodes, others);
        let joins = replacement.trace.joins.as_slice();
        put_rejoins(nodes, region, joins, replacement.rejoins.as_slice());
    }
}

fn put_inner(nodes: &mut Nodes, blocks: &[BlockId])
    requires { (b : ℕ) → IsIn b blocks.now → b < length nodes.old }
    ensures exact { nodes.new ≡ with_inner blocks.now nodes.old }
    ensures many { length nodes.new ≡ length nodes.old }
{
    for block in blocks {
        nodes.set(*block as usize, Node::Inner);
    }
}

fn put_rejoins(nodes: &mut Nodes, region: u32, joins: &[Join], rejoins: &[u32])
    requires joins { (j : Join) → IsIn j joins.now → j.block < length nodes.old }
    requires many { length rejoins.now ≡ length joins.now }
    ensures { nodes.new ≡ with_rejoins region joins.now rejoins.now nodes.old }
{
    for (index, join) in joins.iter().enumerate() {
        let word = rejoins[index];
        nodes.set(join.block as usize, Node::Enters { region, word });
    }
}
