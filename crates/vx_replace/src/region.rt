// The words of a region: each operation of the trace in its word, in the order of the trace. specs/Next.antt of vx_mixed says what they
// are; the clause of `region_of` carries the promise.

ghost use Rattle.std.specs.Prelude.{◌≡◌, ◌+◌, ◌<◌, ◌^◌, ℕ, IfOk, List, drop, length, slice_get, slice_index_or, ◌≤◌};
ghost use Rattle.vx_mixed.specs.CanReplace.{ListsFit, WordsFit};
ghost use Rattle.vx_mixed.specs.Next.{exit_in, last_of, new_end, new_region, renamed_exit};
ghost use Rattle.vx_replace.specs.Placing.{bound_behind, drains_behind, freed_below, placed_item};

use crate::nodes::{new_end, renamed_exit};
use crate::trace::unused_at;
use std::alloc::Global;
use vx_base::listed::{Listed, copied};
use vx_base::outcome::NoMemory;
use vx_flow::graph::{BlockId, Edge, Exit, Op};
use vx_flow::operands::dismissed;
use vx_flow::trace::TraceOp;
use vx_mixed::mixed::MixedGraph;
use vx_mixed::region::{Item, Region};
use vx_mixed::replacement::Replacement;
use vx_mixed::rows::{empty_rows, put};

/// The region that a trace becomes.
pub(crate) fn region_of(
    alloc: Global,
    graph: &MixedGraph,
    replacement: &Replacement,
) -> Result<Region, NoMemory>
    requires few { length graph.now.nodes + length replacement.now.made < 2 ^ 32 }
    requires lists { ListsFit replacement.now }
    requires words { WordsFit replacement.now }
    ensures { IfOk result (λ region. region ≡ new_region graph.now replacement.now) }
{
    let words = words_of(alloc, graph, replacement)?;
    let blocks = copied(alloc, replacement.trace.blocks.as_slice())?;
    let from = last_of(replacement.trace.blocks.as_slice());
    let last = last_exit(alloc, graph, replacement, from)?;
    Ok(Region {
        blocks,
        words,
        from,
        last,
        drain: replacement.last_drain,
    })
}

fn last_of(blocks: &[BlockId]) -> BlockId
    ensures { result ≡ last_of blocks.now }
{
    let mut last = 0;
    for block in blocks {
        last = *block;
    }
    last
}

/// The exit of the last block, to its new ends.
fn last_exit(
    alloc: Global,
    graph: &MixedGraph,
    replacement: &Replacement,
    from: BlockId,
) -> Result<Exit, NoMemory>
    requires { length graph.now.nodes + length replacement.now.made < 2 ^ 32 }
    ensures { IfOk result (λ exit. exit ≡ renamed_exit (new_end graph.now replacement.now.made from) (exit_in (slice_get graph.now.nodes from))) }
{
    match unused_at(graph, from) {
        Some(block) => renamed_exit(alloc, graph, replacement, from, &block.exit),
        None => renamed_exit(alloc, graph, replacement, from, &Exit::Goto(0)),
    }
}

/// The operations of the trace, word by word.
fn words_of(
    alloc: Global,
    graph: &MixedGraph,
    replacement: &Replacement,
) -> Result<Listed<Listed<Item>>, NoMemory>
    requires few { length graph.now.nodes + length replacement.now.made < 2 ^ 32 }
    requires lists { ListsFit replacement.now }
    requires words { WordsFit replacement.now }
    ensures { IfOk result (λ words. words ≡ (new_region graph.now replacement.now).words) }
{
    let ops = replacement.trace.ops.as_slice();
    let clusters = replacement.clusters.as_slice();
    let words = replacement.words.as_slice();
    let mut rows = empty_rows(alloc, replacement.length)?;
    let mut splits = 0;
    let mut bound = 0;
    for index in 0..ops.len() {
        let drain = drain_at(replacement.drains.as_slice(), splits);
        let op = &ops[index];
        let word = words[index];
        let item = placed_item(graph, replacement, op, clusters[index], word, drain, bound);
        put(&mut rows, word, item)?;
        splits += splits_in(op);
        bound = bound_behind(op, word, bound)?;
    }
    let list = Listed::from_vec(rows)?;
    Ok(list)
}

fn placed_item(
    graph: &MixedGraph,
    replacement: &Replacement,
    op: &TraceOp,
    cluster: u32,
    word: u32,
    drain: u32,
    bound: u32,
) -> Item
    requires { length graph.now.nodes + length replacement.now.made < 2 ^ 32 }
    ensures { result ≡ placed_item (new_end graph.now replacement.now.made) op.now cluster word drain bound }
{
    match op {
        TraceOp::Plain(op) => Item::Plain {
            op: freed_below(word, bound, *op),
            cluster,
        },
        TraceOp::Split {
            test,
            leaves_when,
            edge,
            ..
        } => Item::Split {
            test: *test,
            leaves_when: *leaves_when,
            edge: Edge {
                from: edge.from,
                to: new_end(graph, replacement, edge.from, edge.to),
            },
            drain,
        },
    }
}

/// A load may be dismissed in a word that is not after one of a split above it.
fn freed_below(word: u32, bound: u32, op: Op) -> Op
    ensures { result ≡ freed_below word bound op }
{
    if word < bound { dismissed(op) } else { op }
}

fn splits_in(op: &TraceOp) -> usize
    ensures few { result ≤ 1 }
    ensures exact { (drains : List ℕ) → drop result drains ≡ drains_behind op.now drains }
{
    match op {
        TraceOp::Plain(_) => 0,
        TraceOp::Split { .. } => 1,
    }
}

/// A number above the words of all splits so far.
fn bound_behind(op: &TraceOp, word: u32, bound: u32) -> Result<u32, NoMemory>
    ensures { IfOk result (λ next. next ≡ bound_behind op.now word bound) }
{
    match op {
        TraceOp::Plain(_) => Ok(bound),
        TraceOp::Split { .. } => {
            if word < bound {
                return Ok(bound);
            }
            match word.checked_add(1) {
                Some(next) => Ok(next),
                None => Err(NoMemory),
            }
        }
    }
}

fn drain_at(drains: &[u32], split: usize) -> u32
    ensures { result ≡ slice_index_or drains.now split 0 }
{
    match drains.get(split) {
        Some(drain) => *drain,
        None => 0,
    }
}
