// Blocks that are joined to the block before them: those with one entry, by a jump, while the whole is short. A trap block and
// the entry are never joined.

ghost use Rattle.std.specs.Prelude.{◌≡◌, IfOk, length};

use crate::reached::Reached;
use crate::skips::is_trap_at;
use crate::table::{MANY, NONE, at, filled, number_at, put};
use std::alloc::Global;
use vx_base::outcome::NoMemory;
use vx_flow::graph::{Block, BlockId, Exit};
use vx_shape::shape_test::MOST_OPS;

/// For each block that stays the block that is joined to it, or `NONE`.
pub(crate) fn joins(
    alloc: Global,
    blocks: &[Block],
    reached: &Reached,
    stays: &[BlockId],
) -> Result<Vec<BlockId>, NoMemory>
    ensures { IfOk result (λ after. length after.items ≡ length blocks.now) }
{
    let mut before = filled(alloc, blocks.len(), NONE)?;
    note_all(&mut before, blocks, reached, stays);
    let mut after = filled(alloc, blocks.len(), NONE)?;
    join_all(&mut after, blocks, before.as_slice());
    cut_all(&mut after, blocks, before.as_slice());
    Ok(after)
}

/// Notes before each block the one that leads to it, where that is one alone and by a jump; else `MANY`.
fn note_all(before: &mut Vec<BlockId>, blocks: &[Block], reached: &Reached, stays: &[BlockId]) {
    for (place, block) in blocks.iter().enumerate() {
        let from = number_at(place);
        if at(reached.entries.as_slice(), from) != 0 && at(stays, from) == from {
            note(before, stays, &block.exit, from);
        }
    }
}

fn note(before: &mut Vec<BlockId>, stays: &[BlockId], exit: &Exit, from: BlockId) {
    match exit {
        Exit::Goto(next) => note_jump(before, at(stays, *next), from),
        Exit::Split { yes, no, .. } => {
            let yes = at(stays, *yes);
            let no = at(stays, *no);
            if yes == no {
                note_jump(before, yes, from);
            } else {
                put(before, yes, MANY);
                put(before, no, MANY);
            }
        }
        Exit::Call { next, .. } => put(before, at(stays, *next), MANY),
        _ => {}
    }
}

fn note_jump(before: &mut Vec<BlockId>, next: BlockId, from: BlockId) {
    if at(before.as_slice(), next) == NONE {
        put(before, next, from);
    } else {
        put(before, next, MANY);
    }
}

fn join_all(after: &mut Vec<BlockId>, blocks: &[Block], before: &[BlockId])
    ensures { length after.new.items ≡ length after.old.items }
{
    for place in 1..blocks.len() {
        let block = number_at(place);
        let from = at(before, block);
        if from != block && !is_trap_at(blocks, block) {
            put(after, from, block);
        }
    }
}

/// Parts blocks where the whole would be too long.
fn cut_all(after: &mut Vec<BlockId>, blocks: &[Block], before: &[BlockId])
    ensures { length after.new.items ≡ length after.old.items }
{
    for place in 0..blocks.len() {
        let block = number_at(place);
        if at(after.as_slice(), at(before, block)) != block {
            cut(after, blocks, block);
        }
    }
}

fn cut(after: &mut Vec<BlockId>, blocks: &[Block], first: BlockId)
    ensures { length after.new.items ≡ length after.old.items }
{
    let mut block = first;
    let mut size = size_of(blocks, first);
    'cutting: for _ in 0..blocks.len() {
        let next = at(after.as_slice(), block);
        if next == NONE {
            return;
        }
        let more = size_of(blocks, next);
        size = size.saturating_add(more);
        if size > MOST_OPS {
            put(after, block, NONE);
            size = more;
        }
        block = next;
    }
}

fn size_of(blocks: &[Block], block: BlockId) -> usize {
    match blocks.get(block as usize) {
        Some(found) => found.ops.len(),
        None => 0,
    }
}
