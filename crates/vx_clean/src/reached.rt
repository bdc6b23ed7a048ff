// The blocks that paths from the entry reach, and how many edges lead to each of them.

use crate::table::{at, filled, put};
use std::alloc::Global;
use vx_base::outcome::NoMemory;
use vx_flow::graph::{Block, BlockId, Exit};

/// The edges from blocks that are reached, counted by the block to which they lead.
#[derive(Drop)]
pub struct Reached {
    /// All of them. The entry has one more, and a block that is not reached has none.
    pub entries: Vec<u32>,
    /// Those from splits.
    pub sides: Vec<u32>,
}

/// Follows the edges from the entry on.
pub(crate) fn reach(alloc: Global, blocks: &[Block]) -> Result<Reached, NoMemory> {
    let mut entries = filled(alloc, blocks.len(), 0)?;
    let mut sides = filled(alloc, blocks.len(), 0)?;
    follow_all(alloc, blocks, &mut entries, &mut sides)?;
    Ok(Reached { entries, sides })
}

/// Each block pends once, so the bound of the loop is never met.
fn follow_all(
    alloc: Global,
    blocks: &[Block],
    entries: &mut Vec<u32>,
    sides: &mut Vec<u32>,
) -> Result<(), NoMemory> {
    let mut pending = Vec::new(alloc);
    enter(entries, &mut pending, 0)?;
    for _ in 0..blocks.len() {
        match pending.pop() {
            Some(block) => follow(blocks, block, entries, sides, &mut pending)?,
            None => return Ok(()),
        }
    }
    Ok(())
}

fn follow(
    blocks: &[Block],
    block: BlockId,
    entries: &mut Vec<u32>,
    sides: &mut Vec<u32>,
    pending: &mut Vec<BlockId>,
) -> Result<(), NoMemory> {
    match blocks.get(block as usize) {
        Some(found) => match &found.exit {
            Exit::Goto(next) | Exit::Call { next, .. } => enter(entries, pending, *next),
            Exit::Split { yes, no, .. } => {
                count(sides, *yes);
                count(sides, *no);
                enter(entries, pending, *yes)?;
                enter(entries, pending, *no)
            }
            _ => Ok(()),
        },
        None => Ok(()),
    }
}

fn enter(
    entries: &mut Vec<u32>,
    pending: &mut Vec<BlockId>,
    block: BlockId,
) -> Result<(), NoMemory> {
    if at(entries.as_slice(), block) == 0 {
        pending.push(block)?;
    }
    count(entries, block);
    Ok(())
}

fn count(table: &mut Vec<u32>, block: BlockId) {
    let number = at(table.as_slice(), block).saturating_add(1);
    put(table, block, number);
}
