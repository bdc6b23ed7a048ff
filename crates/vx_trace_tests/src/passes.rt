// Counts, written as constants.

use std::alloc::Global;
use vx_base::outcome::NoMemory;
use vx_flow::graph::BlockId;
use vx_profile::counts::Counts;

/// The counts of blocks, and of edges from blocks to blocks. What is not named has none.
#[derive(Clone, Copy)]
pub(crate) struct Passed<'a> {
    pub(crate) blocks: &'a [(BlockId, u64)],
    pub(crate) edges: &'a [(BlockId, BlockId, u64)],
}

fn pass_blocks(counts: &mut Counts, blocks: &[(BlockId, u64)]) -> Result<(), NoMemory> {
    for (block, count) in blocks {
        counts.set_block(0, *block, *count)?;
    }
    Ok(())
}

fn pass_edges(counts: &mut Counts, edges: &[(BlockId, BlockId, u64)]) -> Result<(), NoMemory> {
    for (from, to, count) in edges {
        counts.set_edge(0, *from, *to, *count)?;
    }
    Ok(())
}

fn pass(counts: &mut Counts, passed: &Passed) -> Result<(), NoMemory> {
    pass_blocks(counts, passed.blocks)?;
    pass_edges(counts, passed.edges)
}

/// The counts of function 0.
pub(crate) fn counts(alloc: Global, passed: &Passed) -> Result<Counts, NoMemory> {
    let mut counts = Counts::new(alloc);
    pass(&mut counts, passed)?;
    Ok(counts)
}
