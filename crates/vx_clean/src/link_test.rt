// Whether chains of blocks are linked. Nothing here takes memory; the time is that of the chains, and for each edge that of the
// empty blocks at the start of the chain to which it leads.

ghost use Rattle.std.specs.Prelude.{◌≡◌, slice_get};
ghost use Rattle.std.specs.List.{list_all};
ghost use Rattle.vx_flow.specs.Sound.{targets_of};
ghost use Rattle.vx_clean.specs.Laying.{ops_at};
ghost use Rattle.vx_clean.specs.LinkTest.{are_begun, is_exit_linked, is_laid_out, is_linked, is_linked_at, is_near, is_near_in, moves};
ghost use Rattle.vx_shape.specs.ShapeTest.{is_none_left};

use vx_base::listed::Listed;
use vx_flow::graph::{Block, BlockId, Exit};
use vx_shape::shape_test::has_no_ops;

/// Whether every chain is linked, and the first begins as the graph.
pub fn is_laid_out(to: &[BlockId], blocks: &[Block], chains: &[Listed<BlockId>]) -> bool
    ensures { result ≡ is_laid_out to.now blocks.now chains.now }
{
    target(to, 0) == 0 && starts_with(blocks, 0, chains, 0) && are_linked(to, blocks, chains)
}

/// Where a block is moved to.
pub fn target(to: &[BlockId], block: BlockId) -> BlockId
    ensures { result ≡ moves to.now block }
{
    match to.get(block as usize) {
        Some(target) => *target,
        None => 0,
    }
}

fn are_linked(to: &[BlockId], blocks: &[Block], chains: &[Listed<BlockId>]) -> bool
    ensures { result ≡ list_all (is_linked (moves to.now) blocks.now chains.now) chains.now }
{
    for chain in chains {
        if !is_linked(to, blocks, chains, chain.as_slice()) {
            return false;
        }
    }
    true
}

/// Whether each block of a chain leads to the blocks behind it, and the last one to starts of chains.
fn is_linked(
    to: &[BlockId],
    blocks: &[Block],
    chains: &[Listed<BlockId>],
    chain: &[BlockId],
) -> bool
    ensures { result ≡ is_linked (moves to.now) blocks.now chains.now chain.now }
{
    for (place, block) in chain.iter().enumerate() {
        if !is_linked_at(to, blocks, chains, *block, &chain[place + 1..]) {
            return false;
        }
    }
    true
}

fn is_linked_at(
    to: &[BlockId],
    blocks: &[Block],
    chains: &[Listed<BlockId>],
    block: BlockId,
    behind: &[BlockId],
) -> bool
    ensures { result ≡ is_linked_at (moves to.now) blocks.now chains.now (slice_get blocks.now block) behind.now }
{
    match blocks.get(block as usize) {
        Some(block) => is_exit_linked(to, blocks, chains, &block.exit, behind),
        None => true,
    }
}

fn is_exit_linked(
    to: &[BlockId],
    blocks: &[Block],
    chains: &[Listed<BlockId>],
    exit: &Exit,
    behind: &[BlockId],
) -> bool
    ensures { result ≡ is_exit_linked (moves to.now) blocks.now chains.now exit.now behind.now }
{
    match behind {
        [] => are_begun(to, blocks, chains, exit),
        [_, ..] => match exit {
            Exit::Goto(next) => is_near(blocks, *next, behind),
            Exit::Split { yes, no, .. } => {
                is_near(blocks, *yes, behind) && is_near(blocks, *no, behind)
            }
            Exit::Call { .. } => false,
            Exit::Return(_) => false,
            Exit::Ends(_) => false,
        },
    }
}

/// Whether each block that an exit leads to stands at the start of the chain to which it is moved.
fn are_begun(to: &[BlockId], blocks: &[Block], chains: &[Listed<BlockId>], exit: &Exit) -> bool
    ensures { result ≡ are_begun (moves to.now) blocks.now chains.now (targets_of exit.now) }
{
    match exit {
        Exit::Goto(next) => is_begun(to, blocks, chains, *next),
        Exit::Split { yes, no, .. } => {
            is_begun(to, blocks, chains, *yes) && is_begun(to, blocks, chains, *no)
        }
        Exit::Call { next, .. } => is_begun(to, blocks, chains, *next),
        Exit::Return(_) => true,
        Exit::Ends(_) => true,
    }
}

fn is_begun(to: &[BlockId], blocks: &[Block], chains: &[Listed<BlockId>], block: BlockId) -> bool
    ensures { result ≡ is_near_in blocks.now block (slice_get chains.now (moves to.now block)) }
{
    starts_with(blocks, block, chains, target(to, block))
}

/// Whether a block stands at the start of a chain.
fn starts_with(
    blocks: &[Block],
    block: BlockId,
    chains: &[Listed<BlockId>],
    number: BlockId,
) -> bool
    ensures { result ≡ is_near_in blocks.now block (slice_get chains.now number) }
{
    match chains.get(number as usize) {
        Some(chain) => is_near(blocks, block, chain.as_slice()),
        None => false,
    }
}

/// Whether a block stands in a chain, behind empty blocks alone.
fn is_near(blocks: &[Block], block: BlockId, chain: &[BlockId]) -> bool
    ensures { result ≡ is_near blocks.now block chain.now }
{
    for other in chain {
        if *other == block {
            return true;
        }
        if !is_empty(blocks, *other) {
            return false;
        }
    }
    false
}

/// Whether a block has no operations.
pub fn is_empty(blocks: &[Block], block: BlockId) -> bool
    ensures { result ≡ is_none_left (ops_at (slice_get blocks.now block)) }
{
    match blocks.get(block as usize) {
        Some(block) => has_no_ops(block),
        None => true,
    }
}
