// The joins of a trace: its blocks to which other edges lead than the one from the block before. The edges to its blocks are
// found first, in one pass over all edges.

ghost use Rattle.std.specs.Prelude.{◌≡◌, ◌==◌, ◌+◌, ◌++◌, ◌&&◌, [], not, true, ℕ, List, IfOk, length, slice_index_or, slice_set};
ghost use Rattle.std.specs.List.{filter};
ghost use Rattle.vx_flow.specs.declared.graph.Edge.{Edge};
ghost use Rattle.vx_flow.specs.Effects.{IsIn};
ghost use Rattle.vx_flow.specs.Walk.{edge};
ghost use Rattle.vx_mixed.specs.FromGraph.{same_edge};
ghost use Rattle.vx_replace.specs.TraceLists.{Entering, marked};
ghost use Rattle.vx_mixed.specs.TraceOf.{block_ops, joined, joins_behind, trace_joins};

use crate::trace::{ops_in, rest_of, splits_in};
use std::alloc::Global;
use vx_base::listed::Listed;
use vx_base::outcome::NoMemory;
use vx_flow::graph::{BlockId, Edge};
use vx_flow::trace::Join;
use vx_mixed::mixed::MixedGraph;

/// The joins of the trace of these blocks, by ascending place.
pub(crate) fn joins_of(
    alloc: Global,
    graph: &MixedGraph,
    edges: &[Edge],
    blocks: &[BlockId],
) -> Result<Listed<Join>, NoMemory>
    ensures { IfOk result (λ joins. (live : ℕ → List ℕ) → joins ≡ trace_joins graph.now live edges.now blocks.now) }
{
    match blocks {
        [] | [_] => Ok(Listed::new(alloc)),
        [first, others @ ..] => {
            let entering = entering_of(alloc, graph.nodes.len(), edges, others)?;
            let place = place_behind(graph, 0, *first, others)?;
            joins_behind(alloc, graph, entering.as_slice(), *first, place, others)
        }
    }
}

/// The joins of the blocks behind block `first`, above which so many operations stand, where these edges enter them.
fn joins_behind(
    alloc: Global,
    graph: &MixedGraph,
    entering: &[Edge],
    first: BlockId,
    above: u32,
    blocks: &[BlockId],
) -> Result<Listed<Join>, NoMemory>
    ensures { IfOk result (λ joins. (live : ℕ → List ℕ) (edges : List Edge) → Entering edges blocks.now entering.now → joins ≡ joins_behind graph.now live edges first above blocks.now) }
{
    let mut joins = Listed::new(alloc);
    let mut before = first;
    let mut place = above;
    for index in 0..blocks.len() {
        let block = blocks[index];
        push_join(alloc, &mut joins, entering, place, before, block)?;
        place = place_behind(graph, place, block, rest_of(blocks, index + 1))?;
        before = block;
    }
    Ok(joins)
}

/// The place behind the operations of a block that begins at a place, where these blocks follow.
fn place_behind(
    graph: &MixedGraph,
    place: u32,
    block: BlockId,
    rest: &[BlockId],
) -> Result<u32, NoMemory>
    ensures { IfOk result (λ next. (live : ℕ → List ℕ) → next ≡ place + length (block_ops graph.now live block rest.now)) }
{
    let count = ops_in(graph, block) as u64 + splits_in(graph, block, rest) as u64;
    match u32::try_from(u64::from(place) + count) {
        Ok(next) => Ok(next),
        Err(_) => Err(NoMemory),
    }
}

/// The join at a block, if other edges lead to it than the one from the block before.
fn push_join(
    alloc: Global,
    joins: &mut Listed<Join>,
    entering: &[Edge],
    place: u32,
    before: BlockId,
    block: BlockId,
) -> Result<(), NoMemory>
    ensures { IfOk result (λ _. joins.new ≡ joins.old ++ joined place block (filter (λ e. (e.to == block) && not (same_edge e (edge before block))) entering.now)) }
{
    let inner = Edge {
        from: before,
        to: block,
    };
    let edges = other_edges(alloc, entering, inner)?;
    if edges.is_empty() {
        return Ok(());
    }
    joins.push(Join {
        place,
        block,
        edges,
    })?;
    Ok(())
}

/// The edges that go where an edge goes, but that one.
fn other_edges(alloc: Global, edges: &[Edge], apart: Edge) -> Result<Listed<Edge>, NoMemory>
    ensures { IfOk result (λ others. others ≡ filter (λ e. (e.to == apart.to) && not (same_edge e apart)) edges.now) }
{
    let mut others = Listed::new(alloc);
    for edge in edges {
        if joins_with(*edge, apart) {
            others.push(*edge)?;
        }
    }
    Ok(others)
}

/// Whether an edge is another one to the same block.
fn joins_with(edge: Edge, apart: Edge) -> bool
    ensures { result ≡ ((edge.to == apart.to) && not (same_edge edge apart)) }
{
    edge.to == apart.to && edge != apart
}

/// The edges that lead to these blocks, and at most those beside them that lead to no number below `nodes`.
fn entering_of(
    alloc: Global,
    nodes: usize,
    edges: &[Edge],
    blocks: &[BlockId],
) -> Result<Listed<Edge>, NoMemory>
    ensures { IfOk result (λ entering. Entering edges.now blocks.now entering) }
{
    let marks = marks_of(alloc, nodes, blocks)?;
    edges_into(alloc, edges, marks.as_slice())
}

/// A mark at each of these blocks.
fn marks_of(alloc: Global, nodes: usize, blocks: &[BlockId]) -> Result<Vec<bool>, NoMemory>
    ensures { IfOk result (λ marks. (c : ℕ) → IsIn c blocks.now → slice_index_or marks.items c true ≡ true) }
{
    let mut marks = vec![in alloc; false; nodes]?;
    mark_all(&mut marks, blocks);
    Ok(marks)
}

fn mark_all(marks: &mut Vec<bool>, blocks: &[BlockId])
    ensures { marks.new.items ≡ marked blocks.now marks.old.items }
{
    for block in blocks {
        mark(marks, *block);
    }
}

fn mark(marks: &mut Vec<bool>, block: BlockId)
    ensures { marks.new.items ≡ slice_set marks.old.items block true }
{
    if (block as usize) < marks.len() {
        marks[block as usize] = true;
    }
}

/// The edges to blocks that are marked, or behind the marks.
fn edges_into(alloc: Global, edges: &[Edge], marks: &[bool]) -> Result<Listed<Edge>, NoMemory>
    ensures { IfOk result (λ into. into ≡ filter (λ (e : Edge). slice_index_or marks.now e.to true) edges.now) }
{
    let mut into = Listed::new(alloc);
    for edge in edges {
        if is_marked(marks, edge.to) {
            into.push(*edge)?;
        }
    }
    Ok(into)
}

fn is_marked(marks: &[bool], block: BlockId) -> bool
    ensures { result ≡ slice_index_or marks.now block true }
{
    match marks.get(block as usize) {
        Some(mark) => *mark,
        None => true,
    }
}
