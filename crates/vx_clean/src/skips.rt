// Empty blocks that end by a jump and are skipped. One to which a split leads stays, since the edge of the split would come to
// a block with others before it; it is skipped only where it leads to a trap that nothing else leads to, or where both sides of
// the split come to one block.

use crate::reached::Reached;
use crate::table::{NONE, at, filled, number_at, put};
use std::alloc::Global;
use vx_base::outcome::NoMemory;
use vx_flow::graph::{Block, BlockId, Exit};
use vx_shape::shape_test::{has_no_ops, is_trap};

/// The blocks that are skipped.
#[derive(Drop)]
pub struct Skipped {
    /// For each block the one that stays in its place: itself where it is not skipped.
    pub stays: Vec<BlockId>,
    /// Those that are skipped, each behind the block to which it leads.
    pub order: Vec<BlockId>,
}

/// Finds the blocks that are skipped, with time linear in the blocks. Of a circle of such blocks one stays.
pub(crate) fn find_skipped(
    alloc: Global,
    blocks: &[Block],
    reached: &Reached,
) -> Result<Skipped, NoMemory> {
    let mut onto = filled(alloc, blocks.len(), NONE)?;
    skip_alone(&mut onto, blocks, reached);
    skip_sides(&mut onto, blocks, reached);
    settled(alloc, onto.as_slice())
}

/// Notes for each block that can be skipped by itself where it leads to.
fn skip_alone(onto: &mut Vec<BlockId>, blocks: &[Block], reached: &Reached) {
    for place in 1..blocks.len() {
        let block = number_at(place);
        if can_skip(blocks, reached, block) {
            put(onto, block, jump_of(blocks, block));
        }
    }
}

fn can_skip(blocks: &[Block], reached: &Reached, block: BlockId) -> bool {
    let next = jump_of(blocks, block);
    next != NONE
        && next != block
        && at(reached.entries.as_slice(), block) != 0
        && (at(reached.sides.as_slice(), block) == 0
            || (at(reached.entries.as_slice(), next) == 1 && is_trap_at(blocks, next)))
}

/// Notes the sides of splits that come to one block.
fn skip_sides(onto: &mut Vec<BlockId>, blocks: &[Block], reached: &Reached) {
    for block in blocks {
        match &block.exit {
            Exit::Split { yes, no, .. } => skip_both(onto, blocks, reached, *yes, *no),
            _ => {}
        }
    }
}

fn skip_both(
    onto: &mut Vec<BlockId>,
    blocks: &[Block],
    reached: &Reached,
    yes: BlockId,
    no: BlockId,
) {
    let next = jump_of(blocks, yes);
    if next != NONE
        && next == jump_of(blocks, no)
        && at(reached.entries.as_slice(), yes) == 1
        && at(reached.entries.as_slice(), no) == 1
    {
        put(onto, yes, next);
        put(onto, no, next);
    }
}

/// Where an empty block jumps to; `NONE` where the block is another one.
fn jump_of(blocks: &[Block], block: BlockId) -> BlockId {
    match blocks.get(block as usize) {
        Some(found) => match &found.exit {
            Exit::Goto(next) => { if has_no_ops(found) { *next } else { NONE } }
            _ => NONE,
        },
        None => NONE,
    }
}

/// Whether a block ends by a trap.
pub(crate) fn is_trap_at(blocks: &[Block], block: BlockId) -> bool {
    match blocks.get(block as usize) {
        Some(found) => is_trap(&found.exit),
        None => false,
    }
}

/// Follows each block to the one that stays.
fn settled(alloc: Global, onto: &[BlockId]) -> Result<Skipped, NoMemory> {
    let mut stays = filled(alloc, onto.len(), NONE)?;
    let mut order = Vec::new(alloc);
    settle_all(alloc, onto, &mut stays, &mut order)?;
    Ok(Skipped { stays, order })
}

fn settle_all(
    alloc: Global,
    onto: &[BlockId],
    stays: &mut Vec<BlockId>,
    order: &mut Vec<BlockId>,
) -> Result<(), NoMemory> {
    let mut marks = filled(alloc, onto.len(), NONE)?;
    let mut path = Vec::new(alloc);
    for place in 0..onto.len() {
        let end = walked(
            onto,
            stays.as_slice(),
            &mut marks,
            &mut path,
            number_at(place),
        )?;
        settle(stays, order, &mut path, end)?;
    }
    Ok(())
}

/// Puts the blocks that are skipped from a block on onto the path, and gives the one that stays: where the path comes to a
/// circle, the block at which it closes.
fn walked(
    onto: &[BlockId],
    stays: &[BlockId],
    marks: &mut Vec<BlockId>,
    path: &mut Vec<BlockId>,
    from: BlockId,
) -> Result<BlockId, NoMemory> {
    let mut block = from;
    for _ in 0..onto.len() {
        let end = at(stays, block);
        if end != NONE {
            return Ok(end);
        }
        let next = at(onto, block);
        if next == NONE || at(marks.as_slice(), block) == from {
            return Ok(block);
        }
        put(marks, block, from);
        path.push(block)?;
        block = next;
    }
    Ok(block)
}

/// Empties the path: its blocks are skipped, but for the one that stays.
fn settle(
    stays: &mut Vec<BlockId>,
    order: &mut Vec<BlockId>,
    path: &mut Vec<BlockId>,
    end: BlockId,
) -> Result<(), NoMemory> {
    if at(stays.as_slice(), end) == NONE {
        put(stays, end, end);
    }
    for _ in 0..path.len() {
        match path.pop() {
            Some(block) => {
                if at(stays.as_slice(), block) == NONE {
                    put(stays, block, end);
                    order.push(block)?;
                }
            }
            None => return Ok(()),
        }
    }
    Ok(())
}
