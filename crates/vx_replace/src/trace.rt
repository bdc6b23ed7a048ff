// The trace of some blocks that follow each other: their operations, their splits with what is live where these leave, the
// clusters of copies, and the joins. specs/TraceOf.antt of vx_mixed says what it is; the clause of `trace_of` carries the promise.

ghost use Rattle.std.specs.Prelude.{◌≡◌, ◌<◌, ◌≤◌, ◌^◌, ◌++◌, ℕ, List, None, Some, IfOk, drop, length, map, replicate, slice_get};
ghost use Rattle.std.specs.Option.{option_map};
ghost use Rattle.vx_flow.specs.declared.trace.TraceOp.TheVariants.{Plain};
ghost use Rattle.vx_mixed.specs.Edges.{EdgesOf};
ghost use Rattle.vx_mixed.specs.FromGraph.{unused_in};
ghost use Rattle.vx_mixed.specs.Routes.{live_values};
ghost use Rattle.vx_replace.specs.TraceLists.{LiveAtSplits, block_fixed, has_split};
ghost use Rattle.vx_mixed.specs.TraceOf.{CanTrace, IsTraceOf, block_at, block_ops, clusters_of, split_behind, trace_fixed, trace_ops};
ghost use Rattle.vx_mixed.specs.Valid.{Valid};

use crate::joins::joins_of;
use std::alloc::Global;
use vx_base::listed::{Listed, copied};
use vx_base::outcome::NoMemory;
use vx_flow::graph::{Block, BlockId, Edge, Exit, Op};
use vx_flow::live_rows::Live;
use vx_flow::trace::{Trace, TraceOp};
use vx_mixed::mixed::MixedGraph;
use vx_mixed::region::{Node, Origin};
use vx_mixed::routes::{live_at_blocks, values_at};

/// The trace of these blocks, where these are the graph's edges.
pub(crate) fn trace_of(
    alloc: Global,
    graph: &MixedGraph,
    edges: &[Edge],
    blocks: &[BlockId],
) -> Result<Trace, NoMemory>
    requires valid { Valid graph.now }
    requires edges { EdgesOf graph.now edges.now }
    requires can { CanTrace graph.now blocks.now }
    ensures { IfOk result (λ trace. IsTraceOf graph.now blocks.now trace) }
{
    let live = live_at_splits(alloc, graph, blocks)?;
    trace_with(alloc, graph, edges, &live, blocks)
}

/// The same, where these values are live at the ends of its splits' edges.
pub(crate) fn trace_with(
    alloc: Global,
    graph: &MixedGraph,
    edges: &[Edge],
    live: &Live,
    blocks: &[BlockId],
) -> Result<Trace, NoMemory>
    requires edges { EdgesOf graph.now edges.now }
    requires live { LiveAtSplits graph.now blocks.now (live_values live.now) }
    ensures { IfOk result (λ trace. IsTraceOf graph.now blocks.now trace) }
{
    let ops = ops_with(alloc, graph, live, blocks)?;
    let fixed = fixed_of(alloc, graph, blocks)?;
    let joins = joins_of(alloc, graph, edges, blocks)?;
    let arrays = copied(alloc, graph.arrays.as_slice())?;
    let blocks = copied(alloc, blocks)?;
    Ok(Trace {
        function: graph.function,
        blocks,
        ops,
        fixed,
        joins,
        values: graph.banks.len() as u32,
        arrays,
    })
}

/// The values that are live where the splits of the trace leave; a trace without splits needs none.
fn live_at_splits(alloc: Global, graph: &MixedGraph, blocks: &[BlockId]) -> Result<Live, NoMemory>
    requires valid { Valid graph.now }
    requires can { CanTrace graph.now blocks.now }
    ensures { IfOk result (λ live. LiveAtSplits graph.now blocks.now (live_values live)) }
{
    if has_split(graph, blocks) {
        return live_at_blocks(alloc, graph);
    }
    Ok(Live::nowhere(alloc))
}

/// Whether a block of the trace other than the last has two ways out.
fn has_split(graph: &MixedGraph, blocks: &[BlockId]) -> bool
    ensures { result ≡ has_split graph.now blocks.now }
{
    for index in 0..blocks.len() {
        let rest = rest_of(blocks, index + 1);
        if splits_in(graph, blocks[index], rest) > 0 {
            return true;
        }
    }
    false
}

/// A block that is in no region.
pub(crate) fn unused_at(graph: &MixedGraph, block: BlockId) -> Option<&Block>
    ensures { option_map (λ found. found.now) result ≡ unused_in (slice_get graph.now.nodes block) }
{
    match graph.nodes.as_slice().get(block as usize) {
        Some(Node::Unused(block)) => Some(block),
        _ => None,
    }
}

/// The blocks from a place on.
pub(crate) fn rest_of(blocks: &[BlockId], place: usize) -> &[BlockId]
    requires { place ≤ length blocks.now }
    ensures { result.now ≡ drop place blocks.now }
{
    &blocks[place..]
}

/// The operations of the blocks, with the splits between them and the values that are live where these leave.
fn ops_with(
    alloc: Global,
    graph: &MixedGraph,
    live: &Live,
    blocks: &[BlockId],
) -> Result<Listed<TraceOp>, NoMemory>
    ensures { IfOk result (λ ops. ops ≡ trace_ops graph.now (live_values live.now) blocks.now) }
{
    let mut ops = Listed::new(alloc);
    for index in 0..blocks.len() {
        let rest = rest_of(blocks, index + 1);
        push_block(alloc, &mut ops, graph, live, blocks[index], rest)?;
    }
    Ok(ops)
}

/// The operations of a block and its split, where these blocks follow.
fn push_block(
    alloc: Global,
    ops: &mut Listed<TraceOp>,
    graph: &MixedGraph,
    live: &Live,
    block: BlockId,
    rest: &[BlockId],
) -> Result<(), NoMemory>
    ensures { IfOk result (λ _. ops.new ≡ ops.old ++ block_ops graph.now (live_values live.now) block rest.now) }
{
    match unused_at(graph, block) {
        Some(unused) => {
            push_plain(ops, unused.ops.as_slice())?;
            push_split(alloc, ops, live, block, &unused.exit, rest)
        }
        None => Ok(()),
    }
}

fn push_plain(ops: &mut Listed<TraceOp>, plain: &[Op]) -> Result<(), NoMemory>
    ensures { IfOk result (λ _. ops.new ≡ ops.old ++ map Plain plain.now) }
{
    for op in plain {
        ops.push(TraceOp::Plain(*op))?;
    }
    Ok(())
}

/// The split of a block, if it has one and a block follows.
fn push_split(
    alloc: Global,
    ops: &mut Listed<TraceOp>,
    live: &Live,
    from: BlockId,
    exit: &Exit,
    rest: &[BlockId],
) -> Result<(), NoMemory>
    ensures { IfOk result (λ _. ops.new ≡ ops.old ++ split_behind (live_values live.now) from exit.now rest.now) }
{
    if let ([next, ..], Exit::Split { test, yes, no }) = (rest, exit) {
        let leaves_when = *yes != *next;
        let to = if leaves_when { *yes } else { *no };
        let values = values_at(alloc, live, to)?;
        ops.push(TraceOp::Split {
            test: *test,
            leaves_when,
            edge: Edge { from, to },
            live: values,
        })?;
    }
    Ok(())
}

/// For each operation its cluster, where it is a copy; a split has none.
fn fixed_of(
    alloc: Global,
    graph: &MixedGraph,
    blocks: &[BlockId],
) -> Result<Listed<Option<u32>>, NoMemory>
    ensures { IfOk result (λ fixed. (live : ℕ → List ℕ) → fixed ≡ trace_fixed graph.now live blocks.now) }
{
    let mut fixed = Listed::new(alloc);
    for index in 0..blocks.len() {
        let rest = rest_of(blocks, index + 1);
        push_fixed(&mut fixed, graph, blocks[index], rest)?;
    }
    Ok(fixed)
}

fn push_fixed(
    fixed: &mut Listed<Option<u32>>,
    graph: &MixedGraph,
    block: BlockId,
    rest: &[BlockId],
) -> Result<(), NoMemory>
    ensures { IfOk result (λ _. (live : ℕ → List ℕ) → fixed.new ≡ fixed.old ++ block_fixed graph.now live block rest.now) }
{
    push_own(fixed, graph, block)?;
    push_none(fixed, splits_in(graph, block, rest))
}

/// The clusters of a block that was made; else none for each of its operations.
fn push_own(
    fixed: &mut Listed<Option<u32>>,
    graph: &MixedGraph,
    block: BlockId,
) -> Result<(), NoMemory>
    ensures { IfOk result (λ _. fixed.new ≡ fixed.old ++ clusters_of (length (block_at graph.now block).ops) (slice_get graph.now.origins block)) }
{
    let count = ops_in(graph, block);
    match graph.origins.as_slice().get(block as usize) {
        Some(Some(origin)) => push_clusters(fixed, origin),
        Some(None) => push_none(fixed, count),
        None => push_none(fixed, count),
    }
}

fn push_clusters(fixed: &mut Listed<Option<u32>>, origin: &Origin) -> Result<(), NoMemory>
    ensures { IfOk result (λ _. fixed.new ≡ fixed.old ++ map Some origin.now.clusters) }
{
    for cluster in origin.clusters.as_slice() {
        fixed.push(Some(*cluster))?;
    }
    Ok(())
}

fn push_none(fixed: &mut Listed<Option<u32>>, count: usize) -> Result<(), NoMemory>
    ensures { IfOk result (λ _. fixed.new ≡ fixed.old ++ replicate count None) }
{
    for _op in 0..count {
        fixed.push(None)?;
    }
    Ok(())
}

/// How many operations a block has.
pub(crate) fn ops_in(graph: &MixedGraph, block: BlockId) -> usize
    ensures exact { result ≡ length (block_at graph.now block).ops }
    ensures few { result < 2 ^ 32 }
{
    match unused_at(graph, block) {
        Some(unused) => unused.ops.len(),
        None => 0,
    }
}

/// How many splits a block has in a trace, where these blocks follow: one or none.
pub(crate) fn splits_in(graph: &MixedGraph, block: BlockId, rest: &[BlockId]) -> usize
    ensures exact { (live : ℕ → List ℕ) → result ≡ length (split_behind live block (block_at graph.now block).exit rest.now) }
    ensures few { result ≤ 1 }
{
    match unused_at(graph, block) {
        Some(unused) => splits_of(&unused.exit, rest),
        None => 0,
    }
}

fn splits_of(exit: &Exit, rest: &[BlockId]) -> usize
    ensures exact { (live : ℕ → List ℕ) (b : ℕ) → result ≡ length (split_behind live b exit.now rest.now) }
    ensures few { result ≤ 1 }
{
    match (rest, exit) {
        ([_, ..], Exit::Split { .. }) => 1,
        _ => 0,
    }
}
