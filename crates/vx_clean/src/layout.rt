// Which blocks of a graph become one block: chains of them, by number. Whatever is found here is tested before it is used.

ghost use Rattle.std.specs.Prelude.{◌≡◌, ◌<◌, ◌≤◌, IfOk, length};
ghost use Rattle.vx_clean.specs.Chains.{AreFilled};

use crate::joined_blocks::joins;
use crate::reached::{Reached, reach};
use crate::skips::{Skipped, find_skipped};
use crate::table::{NONE, at, filled, number_at, put};
use std::alloc::Global;
use vx_base::listed::Listed;
use vx_base::outcome::NoMemory;
use vx_flow::graph::{Block, BlockId};

/// Chains of blocks.
#[derive(Drop)]
pub struct Layout {
    /// For each block the number of its chain, 0 where no path reaches it.
    pub to: Vec<BlockId>,
    /// The chains, in the order of the first block of each that is not skipped.
    pub chains: Vec<Listed<BlockId>>,
}

/// The skipped blocks by the one that stays: the first of each, and the next one.
#[derive(Drop)]
struct Rows {
    first: Vec<BlockId>,
    next: Vec<BlockId>,
}

/// Finds the chains, with time linear in the blocks. There is a number for each block, and no chain is empty; which blocks are
/// joined owes nothing, and is tested before it is used.
pub fn find_layout(alloc: Global, blocks: &[Block]) -> Result<Layout, NoMemory>
    ensures numbers { IfOk result (λ layout. length layout.to.items ≡ length blocks.now) }
    ensures chains { IfOk result (λ layout. AreFilled layout.chains.items) }
{
    let reached = reach(alloc, blocks)?;
    let skipped = find_skipped(alloc, blocks, &reached)?;
    let after = joins(alloc, blocks, &reached, skipped.stays.as_slice())?;
    chained(alloc, &reached, &skipped, after.as_slice())
}

fn chained(
    alloc: Global,
    reached: &Reached,
    skipped: &Skipped,
    after: &[BlockId],
) -> Result<Layout, NoMemory>
    ensures numbers { IfOk result (λ layout. length layout.to.items ≡ length after.now) }
    ensures chains { IfOk result (λ layout. AreFilled layout.chains.items) }
{
    let mut firsts = filled(alloc, after.len(), NONE)?;
    mark_firsts(&mut firsts, reached, skipped.stays.as_slice());
    unmark_joined(&mut firsts, after);
    let rows = list_skipped(alloc, skipped)?;
    let mut to = filled(alloc, after.len(), 0)?;
    let chains = chains(alloc, firsts.as_slice(), &rows, after, &mut to)?;
    Ok(Layout { to, chains })
}

/// Marks the blocks that are reached and stay.
fn mark_firsts(firsts: &mut Vec<BlockId>, reached: &Reached, stays: &[BlockId])
    ensures { length firsts.new.items ≡ length firsts.old.items }
{
    for place in 0..stays.len() {
        let block = number_at(place);
        if at(reached.entries.as_slice(), block) != 0 && at(stays, block) == block {
            put(firsts, block, block);
        }
    }
}

fn unmark_joined(firsts: &mut Vec<BlockId>, after: &[BlockId])
    ensures { length firsts.new.items ≡ length firsts.old.items }
{
    for joined in after {
        put(firsts, *joined, NONE);
    }
}

/// Lists the skipped blocks, each before the block to which it leads.
fn list_skipped(alloc: Global, skipped: &Skipped) -> Result<Rows, NoMemory> {
    let mut first = filled(alloc, skipped.stays.len(), NONE)?;
    let mut next = filled(alloc, skipped.stays.len(), NONE)?;
    list_all(&mut first, &mut next, skipped);
    Ok(Rows { first, next })
}

fn list_all(first: &mut Vec<BlockId>, next: &mut Vec<BlockId>, skipped: &Skipped) {
    for block in skipped.order.iter() {
        let stays = at(skipped.stays.as_slice(), *block);
        put(next, *block, at(first.as_slice(), stays));
        put(first, stays, *block);
    }
}

/// The chain of each first block, and for each block the number of its chain.
#[tactic(auto, using(crate::proofs::Filled::filled_more))]
fn chains(
    alloc: Global,
    firsts: &[BlockId],
    rows: &Rows,
    after: &[BlockId],
    to: &mut Vec<BlockId>,
) -> Result<Vec<Listed<BlockId>>, NoMemory>
    requires { length firsts.now ≡ length after.now }
    ensures numbers { IfOk result (λ _. length to.new.items ≡ length to.old.items) }
    ensures chains { IfOk result (λ chains. AreFilled chains.items) }
{
    let mut chains = Vec::new(alloc);
    for first in firsts {
        if *first != NONE {
            let chain = chain(alloc, rows, after, *first)?;
            move_all(to, chain.as_slice(), number_at(chains.len()));
            chains.push(chain)?;
        }
    }
    Ok(chains)
}

fn move_all(to: &mut Vec<BlockId>, chain: &[BlockId], number: u32)
    ensures { length to.new.items ≡ length to.old.items }
{
    for block in chain {
        put(to, *block, number);
    }
}

/// The blocks that are joined to a first one, each behind the skipped ones that lead to it.
fn chain(
    alloc: Global,
    rows: &Rows,
    after: &[BlockId],
    first: BlockId,
) -> Result<Listed<BlockId>, NoMemory>
    ensures { 0 < length after.now → IfOk result (λ chain. 0 < length chain) }
{
    let mut chain = Listed::new(alloc);
    let mut block = first;
    for _turn in 0..after.len() {
        push_skipped(&mut chain, rows, block)?;
        chain.push(block)?;
        block = at(after, block);
        if block == NONE {
            return Ok(chain);
        }
    }
    Ok(chain)
}

fn push_skipped(chain: &mut Listed<BlockId>, rows: &Rows, stays: BlockId) -> Result<(), NoMemory> {
    let mut block = at(rows.first.as_slice(), stays);
    for _ in 0..rows.next.len() {
        if block == NONE {
            return Ok(());
        }
        chain.push(block)?;
        block = at(rows.next.as_slice(), block);
    }
    Ok(())
}
