// How a trace grows from its seed, forward and then backward, a block at a time.

ghost use Rattle.std.specs.Prelude.{◌≡◌, ◌<◌, ◌^◌, ◌++◌, ◌∷◌, [], true, false, Some, IfOk};
ghost use Rattle.vx_flow.specs.Walk.{edge};
ghost use Rattle.vx_trace.specs.Growing.{GrownBackward, GrownForward, IsFree, Linked, OnlyOne, Passes};
ghost use Rattle.vx_trace.specs.Picked.{HeaviestIn, HeaviestOut, IsUnused, size_of};

use crate::blocks::{calls, contains, is_back, is_header, is_unused, ops_of};
use crate::heaviest::{source, target};
use std::alloc::Global;
use vx_base::outcome::NoMemory;
use vx_flow::graph::{BlockId, Edge};
use vx_profile::counts::Counts;
use vx_replace::Mixed;

/// The most operations of a trace of more than one block.
const MOST_OPS: u64 = 512;

/// Blocks that follow each other, and how many operations they have.
#[derive(Drop)]
pub struct Growing {
    pub blocks: Vec<BlockId>,
    pub ops: u64,
}

/// The seed and the blocks behind it.
pub(crate) fn forward(
    alloc: Global,
    mixed: &Mixed,
    counts: &Counts,
    seed: BlockId,
) -> Result<Growing, NoMemory>
    requires { IsUnused mixed.now seed }
    ensures grown { IfOk result (λ grown. GrownForward mixed.now (Linked mixed.now counts.now) seed grown.blocks.items) }
    ensures ops { IfOk result (λ grown. grown.ops ≡ size_of mixed.now grown.blocks.items) }
    ensures few { IfOk result (λ grown. grown.ops < 2 ^ 33) }
{
    let mut blocks = alone(alloc, seed)?;
    let mut last = seed;
    let mut ops = ops_of(mixed, seed);
    'growing: loop {
        match next_after(mixed, counts, blocks.as_slice(), last) {
            None => return Ok(Growing { blocks, ops }),
            Some(next) => {
                let added = ops_of(mixed, next);
                let more = ops + added;
                if more > MOST_OPS {
                    return Ok(Growing { blocks, ops });
                }
                put_behind(&mut blocks, next)?;
                last = next;
                ops = more;
            }
        }
    }
}

/// The blocks with those before them.
pub(crate) fn backward(
    mixed: &Mixed,
    counts: &Counts,
    seed: BlockId,
    grown: Growing,
) -> Result<Vec<BlockId>, NoMemory>
    requires grown { GrownForward mixed.now (Linked mixed.now counts.now) seed grown.blocks.items }
    requires ops { grown.ops ≡ size_of mixed.now grown.blocks.items }
    requires few { grown.ops < 2 ^ 33 }
    ensures { IfOk result (λ blocks. GrownBackward mixed.now (Linked mixed.now counts.now) grown.blocks.items blocks.items) }
{
    let mut blocks = grown.blocks;
    let mut first = seed;
    let mut ops = grown.ops;
    'growing: loop {
        match next_before(mixed, counts, blocks.as_slice(), first) {
            None => return Ok(blocks),
            Some(next) => {
                let added = ops_of(mixed, next);
                let more = ops + added;
                if more > MOST_OPS {
                    return Ok(blocks);
                }
                put_before(&mut blocks, next)?;
                first = next;
                ops = more;
            }
        }
    }
}

/// A block alone.
fn alone(alloc: Global, block: BlockId) -> Result<Vec<BlockId>, NoMemory>
    ensures { IfOk result (λ blocks. blocks.items ≡ block ∷ []) }
{
    let mut blocks = Vec::new(alloc);
    blocks.push(block)?;
    Ok(blocks)
}

fn put_behind(blocks: &mut Vec<BlockId>, block: BlockId) -> Result<(), NoMemory>
    ensures { IfOk result (λ _. blocks.new.items ≡ blocks.old.items ++ block ∷ []) }
{
    blocks.push(block)?;
    Ok(())
}

fn put_before(blocks: &mut Vec<BlockId>, block: BlockId) -> Result<(), NoMemory>
    ensures { IfOk result (λ _. blocks.new.items ≡ block ∷ blocks.old.items) }
{
    blocks.insert(0, block)?;
    Ok(())
}

/// The block that could follow the last of these.
fn next_after(mixed: &Mixed, counts: &Counts, blocks: &[BlockId], last: BlockId) -> Option<BlockId>
    requires { IsUnused mixed.now last }
    ensures { OnlyOne (λ b. IsFree mixed.now blocks.now b × Linked mixed.now counts.now (edge last b)) result }
{
    match target(mixed, counts, last) {
        None => None,
        Some(next) => {
            let edge = Edge {
                from: last,
                to: next,
            };
            if is_free(mixed, blocks, next) && is_linked_on(mixed, counts, edge) {
                Some(next)
            } else {
                None
            }
        }
    }
}

/// The block that could stand before the first of these.
fn next_before(
    mixed: &Mixed,
    counts: &Counts,
    blocks: &[BlockId],
    first: BlockId,
) -> Option<BlockId>
    requires { IsUnused mixed.now first }
    ensures { OnlyOne (λ b. IsFree mixed.now blocks.now b × Linked mixed.now counts.now (edge b first)) result }
{
    match source(mixed, counts, first) {
        None => None,
        Some(next) => {
            let edge = Edge {
                from: next,
                to: first,
            };
            if is_free(mixed, blocks, next) && is_linked_back(mixed, counts, edge) {
                Some(next)
            } else {
                None
            }
        }
    }
}

/// Whether a block is unused and none of these.
fn is_free(mixed: &Mixed, blocks: &[BlockId], block: BlockId) -> bool
    ensures holds { result ≡ true → IsFree mixed.now blocks.now block }
    ensures fails { result ≡ false → IsFree mixed.now blocks.now block → ⊥ }
{
    is_unused(mixed, block) && !contains(blocks, block)
}

/// Whether a trace may go along the heaviest edge out of a block to an unused block.
fn is_linked_on(mixed: &Mixed, counts: &Counts, edge: Edge) -> bool
    requires unused { IsUnused mixed.now edge.to }
    requires heaviest { HeaviestOut mixed.now counts.now edge }
    ensures holds { result ≡ true → Linked mixed.now counts.now edge }
    ensures fails { result ≡ false → Linked mixed.now counts.now edge → ⊥ }
{
    passes(mixed, edge) && is_some_of(source(mixed, counts, edge.to), edge.from)
}

/// Whether a trace may go along the heaviest edge into an unused block from an unused one.
fn is_linked_back(mixed: &Mixed, counts: &Counts, edge: Edge) -> bool
    requires from { IsUnused mixed.now edge.from }
    requires unused { IsUnused mixed.now edge.to }
    requires heaviest { HeaviestIn mixed.now counts.now edge }
    ensures holds { result ≡ true → Linked mixed.now counts.now edge }
    ensures fails { result ≡ false → Linked mixed.now counts.now edge → ⊥ }
{
    passes(mixed, edge) && is_some_of(target(mixed, counts, edge.from), edge.to)
}

/// Whether a trace may go along an edge to an unused block, whatever edges are heavier.
fn passes(mixed: &Mixed, edge: Edge) -> bool
    requires { IsUnused mixed.now edge.to }
    ensures holds { result ≡ true → Passes mixed.now edge }
    ensures fails { result ≡ false → Passes mixed.now edge → ⊥ }
{
    !is_back(mixed, edge) && !is_header(mixed, edge.to) && !calls(mixed, edge.from)
}

/// Whether there is a block, and it is this one.
fn is_some_of(found: Option<BlockId>, block: BlockId) -> bool
    ensures holds { result ≡ true → found ≡ Some block }
    ensures fails { result ≡ false → found ≡ Some block → ⊥ }
{
    match found {
        Some(found) => found == block,
        None => false,
    }
}
