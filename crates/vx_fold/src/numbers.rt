// The values that one operation alone writes, and the numbers that these compute of numbers, or the places at such indexes. Whatever is found here is tested
// before it is used.

use crate::settled::{computed, number_in, place_of};
use std::alloc::Global;
use vx_base::outcome::NoMemory;
use vx_flow::graph::{Block, Exit, Graph, Op, Value};
use vx_flow::operands::written_by;

/// How often the blocks are gone through at most.
const MOST_PASSES: u32 = 16;

/// For each value of a graph the one number that it holds, where that was found. The time is that of a few passes over the
/// blocks.
pub(crate) fn find_numbers(alloc: Global, graph: &Graph) -> Result<Vec<Option<i32>>, NoMemory> {
    let mut writers = vec![in alloc; 0u32; graph.banks.len()]?;
    count_all(&mut writers, graph);
    let mut numbers = vec![in alloc; None; graph.banks.len()]?;
    for _ in 0..MOST_PASSES {
        if !number_blocks(&mut numbers, writers.as_slice(), graph.blocks.as_slice()) {
            return Ok(numbers);
        }
    }
    Ok(numbers)
}

/// Counts what writes each value. A parameter counts as written twice.
fn count_all(writers: &mut Vec<u32>, graph: &Graph) {
    for parameter in graph.parameters.as_slice() {
        count(writers, *parameter, 2);
    }
    count_blocks(writers, graph.blocks.as_slice());
}

fn count_blocks(writers: &mut Vec<u32>, blocks: &[Block]) {
    for block in blocks {
        count_ops(writers, block.ops.as_slice());
        match &block.exit {
            Exit::Call {
                result: Some(value),
                ..
            } => count(writers, *value, 1),
            _ => {}
        }
    }
}

fn count_ops(writers: &mut Vec<u32>, ops: &[Op]) {
    for op in ops {
        match written_by(op) {
            Some(to) => count(writers, to, 1),
            None => {}
        }
    }
}

fn count(writers: &mut Vec<u32>, value: Value, times: u32) {
    if (value as usize) < writers.len() {
        writers[value as usize] = writers[value as usize].saturating_add(times);
    }
}

/// Numbers what computes a number, and the places at such indexes. It answers whether a value was numbered that was not before.
fn number_blocks(numbers: &mut Vec<Option<i32>>, writers: &[u32], blocks: &[Block]) -> bool {
    let mut more = false;
    for block in blocks {
        let numbered = number_ops(numbers, writers, block.ops.as_slice());
        more = more || numbered;
    }
    more
}

fn number_ops(numbers: &mut Vec<Option<i32>>, writers: &[u32], ops: &[Op]) -> bool {
    let mut more = false;
    for op in ops {
        let numbered = number_op(numbers, writers, op);
        more = more || numbered;
    }
    more
}

fn number_op(numbers: &mut Vec<Option<i32>>, writers: &[u32], op: &Op) -> bool {
    match op {
        Op::Compute {
            code,
            to,
            left,
            right,
        } => {
            let left = number_in(numbers.as_slice(), left);
            let right = number_in(numbers.as_slice(), right);
            match computed(*code, left, right) {
                Some(number) => set_number(numbers, writers, *to, number),
                None => false,
            }
        }
        Op::Place { to, index, .. } => match place_of(number_in(numbers.as_slice(), index)) {
            Some(number) => set_number(numbers, writers, *to, number),
            None => false,
        },
        _ => false,
    }
}

/// Numbers a value that is written once and has no number yet.
fn set_number(numbers: &mut Vec<Option<i32>>, writers: &[u32], value: Value, number: i32) -> bool {
    let place = value as usize;
    if place < numbers.len()
        && place < writers.len()
        && writers[place] == 1
        && numbers[place].is_none()
    {
        numbers[place] = Some(number);
        true
    } else {
        false
    }
}
