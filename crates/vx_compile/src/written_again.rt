// Whether a block of a graph with a loop writes one value again and again, as the turns of an unrolled loop do.

use std::alloc::Global;
use vx_base::outcome::NoMemory;
use vx_flow::graph::{Block, BlockId, Exit, Flow, Graph, Op, Value};
use vx_flow::operands::written_by;

/// How often a block writes a value at least. What two turns would save is not worth that they wait for each other.
const AGAIN: u32 = 3;

/// Which block wrote a value last, counted from 1, and how often.
#[derive(Clone, Copy)]
struct Written {
    block: usize,
    times: u32,
}

/// Whether some block of a graph with a loop writes a value so often.
pub(crate) fn write_again(alloc: Global, flow: &Flow) -> Result<bool, NoMemory> {
    for graph in flow.functions.as_slice() {
        if goes_back(graph.blocks.as_slice()) && writes_again(alloc, graph)? {
            return Ok(true);
        }
    }
    Ok(false)
}

/// Whether a block leads to itself or to one before it: code without loops is left as it is, since it runs once.
fn goes_back(blocks: &[Block]) -> bool {
    for (number, block) in blocks.iter().enumerate() {
        if leads_back(number, &block.exit) {
            return true;
        }
    }
    false
}

fn leads_back(number: usize, exit: &Exit) -> bool {
    match exit {
        Exit::Goto(to) | Exit::Call { next: to, .. } => is_before(*to, number),
        Exit::Split { yes, no, .. } => is_before(*yes, number) || is_before(*no, number),
        Exit::Return(_) | Exit::Ends(_) => false,
    }
}

fn is_before(block: BlockId, number: usize) -> bool {
    block as usize <= number
}

fn writes_again(alloc: Global, graph: &Graph) -> Result<bool, NoMemory> {
    let none = Written { block: 0, times: 0 };
    let mut writers = vec![in alloc; none; graph.banks.len()]?;
    Ok(has_again(&mut writers, graph.blocks.as_slice()))
}

fn has_again(writers: &mut Vec<Written>, blocks: &[Block]) -> bool {
    for (number, block) in blocks.iter().enumerate() {
        if mark_ops(writers, number.saturating_add(1), block.ops.as_slice()) {
            return true;
        }
    }
    false
}

fn mark_ops(writers: &mut Vec<Written>, block: usize, ops: &[Op]) -> bool {
    for op in ops {
        match written_by(op) {
            Some(value) => {
                if mark(writers, block, value) {
                    return true;
                }
            }
            None => {}
        }
    }
    false
}

/// Marks a value as written by a block. The answer is whether it was written often enough.
fn mark(writers: &mut Vec<Written>, block: usize, value: Value) -> bool {
    let place = value as usize;
    if place >= writers.len() {
        return false;
    }
    let last = writers[place];
    let times = if last.block == block {
        last.times.saturating_add(1)
    } else {
        1
    };
    writers[place] = Written { block, times };
    times >= AGAIN
}
