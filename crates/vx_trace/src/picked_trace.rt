// The trace that is picked. The clause of `pick` carries the promise; specs/Picked.antt says which trace it is.

ghost use Rattle.std.specs.Prelude.{◌≡◌, Some, IfOk};
ghost use Rattle.vx_trace.specs.Growing.{IsSeed};
ghost use Rattle.vx_trace.specs.Picked.{Picked, Picks, count_of_block, greatest_count};

use crate::counts::count_of_block;
use crate::growth::{backward, forward};
use crate::heaviest::seed;
use std::alloc::Global;
use vx_base::listed::Listed;
use vx_base::outcome::NoMemory;
use vx_flow::graph::BlockId;
use vx_profile::counts::Counts;
use vx_replace::Mixed;

/// The blocks of the trace that is picked in a graph by these counts, in its order; `None` where no block is unused. It looks
/// once at each block, and for each block of the trace and for each of its ends once at the ends of all edges.
pub fn pick(
    alloc: Global,
    mixed: &Mixed,
    counts: &Counts,
) -> Result<Option<Listed<BlockId>>, NoMemory>
    ensures { IfOk result (λ found. Picks mixed.now counts.now found) }
{
    match seed(mixed, counts) {
        None => Ok(None),
        Some(seed) => {
            let blocks = grown_from(alloc, mixed, counts, seed)?;
            let list = Listed::from_vec(blocks)?;
            Ok(Some(list))
        }
    }
}

/// The seed with the blocks behind it and those before it.
fn grown_from(
    alloc: Global,
    mixed: &Mixed,
    counts: &Counts,
    seed: BlockId,
) -> Result<Vec<BlockId>, NoMemory>
    requires { IsSeed mixed.now counts.now (Some seed) }
    ensures { IfOk result (λ blocks. Picked mixed.now counts.now blocks.items) }
{
    let grown = forward(alloc, mixed, counts, seed)?;
    backward(mixed, counts, seed, grown)
}

/// How often the seed of a picked trace was passed, which is at least as often as each other block of it.
pub fn count_of_trace(mixed: &Mixed, counts: &Counts, blocks: &[BlockId]) -> u64
    ensures { (picked : Picked mixed.now counts.now blocks.now) → result ≡ count_of_block mixed.now counts.now picked.seed }
{
    greatest_count(mixed, counts, blocks)
}

/// The greatest count of some blocks.
fn greatest_count(mixed: &Mixed, counts: &Counts, blocks: &[BlockId]) -> u64
    ensures { result ≡ greatest_count mixed.now counts.now blocks.now }
{
    match blocks.split_first() {
        None => 0,
        Some((block, others)) => {
            count_of_block(mixed, counts, *block).max(greatest_count(mixed, counts, others))
        }
    }
}
