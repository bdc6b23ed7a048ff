// The edges of a graph after a replacement: those that were not inside the trace, each to its new end, and one from each block
// that is made, sorted by their numbers. The clause of `edges_after` carries the promise.

ghost use Rattle.std.specs.Prelude.{◌≡◌, ◌+◌, ◌<◌, ◌≤◌, ◌^◌, ◌++◌, ◌∷◌, ℕ, None, not, IfOk, drop, length, replicate, take};
ghost use Rattle.std.specs.List.{filter, list_any};
ghost use Rattle.std.specs.List.Sorted.{IsNonDecreasingBy, IsPermutation};
ghost use Rattle.vx_flow.specs.Effects.{IsIn};
ghost use Rattle.vx_mixed.specs.CanReplace.{CanReplace};
ghost use Rattle.vx_mixed.specs.Edges.{EdgesOf};
ghost use Rattle.vx_mixed.specs.FromGraph.{same_edge};
ghost use Rattle.vx_mixed.specs.MovedEdges.{before_each, edge_key, follows, is_inner, kept_edges, made_edges, moved, with_before};
ghost use Rattle.vx_mixed.specs.Next.{next_mixed};
ghost use Rattle.vx_mixed.specs.Settled.{NoTwice};
ghost use Rattle.vx_mixed.specs.Valid.{Valid};

use crate::begun_lists::no_numbers;
use crate::nodes::new_end;
use std::alloc::Global;
use vx_base::listed::Listed;
use vx_base::outcome::NoMemory;
use vx_flow::graph::{BlockId, Edge};
use vx_mixed::mixed::MixedGraph;
use vx_mixed::region::Made;
use vx_mixed::replacement::Replacement;

/// The edges after a replacement, ascending, of a graph that has these edges.
pub(crate) fn edges_after(
    alloc: Global,
    graph: &MixedGraph,
    edges: &[Edge],
    replacement: &Replacement,
) -> Result<Listed<Edge>, NoMemory>
    requires few { length graph.now.nodes + length replacement.now.made < 2 ^ 32 }
    requires valid { Valid graph.now }
    requires edges { EdgesOf graph.now edges.now }
    requires can { CanReplace graph.now replacement.now }
    ensures { IfOk result (λ after. EdgesOf (next_mixed graph.now replacement.now) after) }
{
    let mut after = kept_edges(alloc, graph, edges, replacement)?;
    let first = graph.nodes.len() as u32;
    push_made_edges(&mut after, first, replacement.made.as_slice())?;
    sort_edges(&mut after);
    Ok(Listed::from_vec(after)?)
}

/// The edges that are not inside the trace, each to its new end.
fn kept_edges(
    alloc: Global,
    graph: &MixedGraph,
    edges: &[Edge],
    replacement: &Replacement,
) -> Result<Vec<Edge>, NoMemory>
    requires { length graph.now.nodes + length replacement.now.made < 2 ^ 32 }
    ensures { IfOk result (λ kept. kept.items ≡ kept_edges graph.now replacement.now edges.now) }
{
    let mut kept = Vec::new(alloc);
    for edge in edges {
        if !is_inner(replacement.trace.blocks.as_slice(), *edge) {
            kept.push(moved(graph, replacement, *edge))?;
        }
    }
    Ok(kept)
}

/// The edges that are not inside the trace of these blocks, in their order: one pass over them. Each block has a number below
/// `nodes`.
pub(crate) fn outer_edges(
    alloc: Global,
    nodes: usize,
    edges: &[Edge],
    blocks: &[BlockId],
) -> Result<Listed<Edge>, NoMemory>
    requires once { NoTwice blocks.now }
    requires there { (b : ℕ) → IsIn b blocks.now → b < nodes }
    ensures { IfOk result (λ outer. outer ≡ filter (λ e. not (is_inner blocks.now e)) edges.now) }
{
    let before = blocks_before(alloc, nodes, blocks)?;
    edges_beside(alloc, edges, before.as_slice())
}

/// For each number the block that stands before that block in the trace.
fn blocks_before(
    alloc: Global,
    nodes: usize,
    blocks: &[BlockId],
) -> Result<Vec<Option<u32>>, NoMemory>
    requires { (b : ℕ) → IsIn b blocks.now → b < nodes }
    ensures { IfOk result (λ before. before.items ≡ before_each blocks.now (replicate nodes None)) }
{
    let mut before = no_numbers(alloc, nodes)?;
    if let [first, others @ ..] = blocks {
        put_before(&mut before, *first, others);
    }
    Ok(before)
}

fn put_before(before: &mut Vec<Option<u32>>, first: BlockId, others: &[BlockId])
    requires { (b : ℕ) → IsIn b others.now → b < length before.old.items }
    ensures { before.new.items ≡ with_before first others.now before.old.items }
{
    let mut last = first;
    for block in others {
        before[*block as usize] = Some(last);
        last = *block;
    }
}

/// The edges that do not go from the block that stands before, copied run by run.
fn edges_beside(
    alloc: Global,
    edges: &[Edge],
    before: &[Option<u32>],
) -> Result<Listed<Edge>, NoMemory>
    ensures { IfOk result (λ beside. beside ≡ filter (λ e. not (follows before.now e)) edges.now) }
{
    let mut beside = Vec::with_capacity(alloc, edges.len())?;
    let mut rest = edges;
    'run: loop {
        let run = run_of(rest, before);
        beside.extend_from_slice(front_of(rest, run))?;
        if run >= rest.len() {
            return Ok(Listed::from_vec(beside)?);
        }
        rest = behind(rest, run + 1);
    }
}

/// How many edges stand above the first that goes from the block that stands before.
fn run_of(edges: &[Edge], before: &[Option<u32>]) -> usize
    ensures within { result ≤ length edges.now }
    ensures parts { filter (λ e. not (follows before.now e)) edges.now ≡ take result edges.now ++ filter (λ e. not (follows before.now e)) (drop (result + 1) edges.now) }
{
    for (index, edge) in edges.iter().enumerate() {
        if follows(before, *edge) {
            return index;
        }
    }
    edges.len()
}

fn front_of(edges: &[Edge], count: usize) -> &[Edge]
    requires { count ≤ length edges.now }
    ensures { result.now ≡ take count edges.now }
{
    &edges[..count]
}

fn behind(edges: &[Edge], count: usize) -> &[Edge]
    requires { count ≤ length edges.now }
    ensures { result.now ≡ drop count edges.now }
{
    &edges[count..]
}

/// Whether the edge goes from the block that stands before the one to which it goes.
fn follows(before: &[Option<u32>], edge: Edge) -> bool
    ensures { result ≡ follows before.now edge }
{
    match before.get(edge.to as usize) {
        Some(Some(from)) => *from == edge.from,
        Some(None) => false,
        None => false,
    }
}

/// The edge to its new end.
fn moved(graph: &MixedGraph, replacement: &Replacement, edge: Edge) -> Edge
    requires { length graph.now.nodes + length replacement.now.made < 2 ^ 32 }
    ensures { result ≡ moved graph.now replacement.now.made edge }
{
    Edge {
        from: edge.from,
        to: new_end(graph, replacement, edge.from, edge.to),
    }
}

/// Whether the edge goes from a block of the trace to the next one.
fn is_inner(blocks: &[BlockId], edge: Edge) -> bool
    ensures { result ≡ is_inner blocks.now edge }
{
    match blocks {
        [] => false,
        [first, others @ ..] => is_inner_behind(*first, others, edge),
    }
}

fn is_inner_behind(first: BlockId, blocks: &[BlockId], edge: Edge) -> bool
    ensures { result ≡ is_inner (first ∷ blocks.now) edge }
{
    let mut before = first;
    for block in blocks {
        if before == edge.from && *block == edge.to {
            return true;
        }
        before = *block;
    }
    false
}

/// Whether an edge is one of these.
pub(crate) fn is_edge_among(edges: &[Edge], edge: Edge) -> bool
    ensures { result ≡ list_any (λ other. same_edge other edge) edges.now }
{
    for other in edges {
        if *other == edge {
            return true;
        }
    }
    false
}

/// The edges from the blocks that are made, where those from `first` on are made.
fn push_made_edges(edges: &mut Vec<Edge>, first: u32, made: &[Made]) -> Result<(), NoMemory>
    requires { first + length made.now < 2 ^ 32 }
    ensures { IfOk result (λ _. edges.new.items ≡ edges.old.items ++ made_edges first made.now) }
{
    for (index, block) in made.iter().enumerate() {
        edges.push(Edge {
            from: first + index as u32,
            to: block.edge.to,
        })?;
    }
    Ok(())
}

fn sort_edges(edges: &mut Vec<Edge>)
    ensures sorted { IsNonDecreasingBy edge_key edges.new.items }
    ensures same { IsPermutation edges.old.items edges.new.items }
{
    edges.sort_unstable_by_key(edge_key);
}

/// The number by which edges are sorted.
fn edge_key(edge: &Edge) -> u64
    ensures { result ≡ edge_key edge.now }
{
    edge.from as u64 * 4294967296 + edge.to as u64
}
