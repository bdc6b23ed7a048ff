// The values that are needed: those that exits, stores and printings read, and those that are read for the sake of a needed one.
// Whatever is found here is tested before it is used.

use crate::reads::is_dropped;
use std::alloc::Global;
use vx_base::outcome::NoMemory;
use vx_flow::graph::{Block, Exit, Op, Operand, Value};
use vx_flow::operands::{held_by, read_by};

/// How often the blocks are gone through at most.
const MOST_PASSES: u32 = 16;

/// A mark for each of so many values: whether it is needed. The time is that of a few passes over the blocks.
pub(crate) fn find_needed(
    alloc: Global,
    blocks: &[Block],
    values: usize,
) -> Result<Vec<bool>, NoMemory> {
    let mut needed = vec![in alloc; false; values]?;
    for _ in 0..MOST_PASSES {
        if !mark_blocks(&mut needed, blocks) {
            return Ok(needed);
        }
    }
    Ok(needed)
}

/// Marks what each block reads, the last block first. It answers whether a value was marked that was not before.
fn mark_blocks(needed: &mut Vec<bool>, blocks: &[Block]) -> bool {
    let mut more = false;
    for block in blocks.iter().rev() {
        let by_exit = mark_exit(needed, &block.exit);
        let by_ops = mark_ops(needed, block.ops.as_slice());
        more = more || by_exit || by_ops;
    }
    more
}

fn mark_ops(needed: &mut Vec<bool>, ops: &[Op]) -> bool {
    let mut more = false;
    for op in ops.iter().rev() {
        if !is_dropped(needed.as_slice(), op) && mark_reads(needed, op) {
            more = true;
        }
    }
    more
}

fn mark_exit(needed: &mut Vec<bool>, exit: &Exit) -> bool {
    match exit {
        Exit::Split { test, .. } => mark(needed, *test),
        Exit::Call { arguments, .. } => mark_all(needed, arguments.as_slice()),
        Exit::Return(operand) => mark_operand(needed, operand),
        _ => false,
    }
}

fn mark_all(needed: &mut Vec<bool>, operands: &[Operand]) -> bool {
    let mut more = false;
    for operand in operands {
        let marked = mark_operand(needed, operand);
        more = more || marked;
    }
    more
}

fn mark_reads(needed: &mut Vec<bool>, op: &Op) -> bool {
    let read = read_by(op);
    let first = mark_if(needed, read.first);
    let second = mark_if(needed, read.second);
    let third = mark_if(needed, read.third);
    first || second || third
}

fn mark_operand(needed: &mut Vec<bool>, operand: &Operand) -> bool {
    mark_if(needed, held_by(operand))
}

fn mark_if(needed: &mut Vec<bool>, value: Option<Value>) -> bool {
    match value {
        Some(value) => mark(needed, value),
        None => false,
    }
}

/// Marks a value, and answers whether it was not marked before.
fn mark(needed: &mut Vec<bool>, value: Value) -> bool {
    if (value as usize) < needed.len() && !needed[value as usize] {
        needed[value as usize] = true;
        true
    } else {
        false
    }
}
