// What may be computed early in a turn of a loop: the counters that the loop writes once, behind a test whose both sides stay in it. Before
// that test their next values are computed under other names, so that what the next turn begins with need not wait for the test. They are
// looked for and owe nothing, since what does not pass the test is not put.

use crate::search::{Addition, has_room};
use std::alloc::Global;
use vx_base::arithmetic::Code;
use vx_base::outcome::NoMemory;
use vx_flow::graph::{Block, BlockId, Exit, Graph, Op, Operand, Value};
use vx_loops::{Loops, entries_at, loops_of, order_of};

/// How many counters of a loop are computed early at most.
const MOST_OF_ONE: usize = 2;

/// How many blocks are gone over for a loop at most.
const MOST_BLOCKS: usize = 256;

/// Adds what may be computed early in the loops of a graph.
pub(crate) fn advance_all(
    alloc: Global,
    graph: &Graph,
    unnamed: &[Value],
    additions: &mut Vec<Addition>,
) -> Result<(), NoMemory> {
    let order = order_of(alloc, graph.blocks.as_slice())?;
    let advanced = advance_in_order(alloc, graph, order.as_slice(), unnamed, additions);
    drop(order);
    advanced
}

fn advance_in_order(
    alloc: Global,
    graph: &Graph,
    order: &[BlockId],
    unnamed: &[Value],
    additions: &mut Vec<Addition>,
) -> Result<(), NoMemory> {
    let mut loops = loops_of(alloc, graph)?;
    let blocks = graph.blocks.as_slice();
    let advanced = advance_each(alloc, blocks, &mut loops, order, unnamed, additions);
    drop(loops);
    advanced
}

/// Goes over the blocks, each as the header of a loop.
fn advance_each(
    alloc: Global,
    blocks: &[Block],
    loops: &mut Loops,
    order: &[BlockId],
    unnamed: &[Value],
    additions: &mut Vec<Addition>,
) -> Result<(), NoMemory> {
    for header in 0..blocks.len() {
        if is_header(loops, header) {
            drop(entries_at(alloc, blocks, loops, header)?);
            advance_in(blocks, loops, order, header, unnamed, additions)?;
        }
    }
    Ok(())
}

fn is_header(loops: &Loops, block: usize) -> bool {
    for source in loops.leading_to(block) {
        if loops.rank(*source as usize) >= loops.rank(block) {
            return true;
        }
    }
    false
}

/// Adds the counters that are written behind the first test of the loop whose both sides stay in it.
fn advance_in(
    blocks: &[Block],
    loops: &Loops,
    order: &[BlockId],
    header: usize,
    unnamed: &[Value],
    additions: &mut Vec<Addition>,
) -> Result<(), NoMemory> {
    if loops.has_call() {
        return Ok(());
    }
    match fork_of(blocks, loops, header) {
        Some(fork) => {
            if has_room(blocks, fork) {
                advance_behind(blocks, loops, order, fork, unnamed, additions)?;
            }
            Ok(())
        }
        None => Ok(()),
    }
}

/// What follows a block of a loop within a turn.
#[derive(Clone, Copy)]
enum Next {
    /// A test whose both sides stay in the loop.
    Fork,
    /// One block, which heads no loop.
    Block(usize),
    Nothing,
}

/// The block of the first test of each turn whose both sides stay in the loop, where no inner loop and no call stands before it.
fn fork_of(blocks: &[Block], loops: &Loops, header: usize) -> Option<usize> {
    let mut place = header;
    for _ in 0..MOST_BLOCKS {
        match next_of(blocks, loops, place) {
            Next::Fork => return Some(place),
            Next::Block(next) => place = next,
            Next::Nothing => return None,
        }
    }
    None
}

fn next_of(blocks: &[Block], loops: &Loops, place: usize) -> Next {
    match blocks.get(place) {
        Some(block) => match &block.exit {
            Exit::Goto(next) => one_next(loops, *next),
            Exit::Split { yes, no, .. } => next_by(loops, *yes, *no),
            _ => Next::Nothing,
        },
        None => Next::Nothing,
    }
}

fn next_by(loops: &Loops, yes: BlockId, no: BlockId) -> Next {
    match (loops.is_inside(yes as usize), loops.is_inside(no as usize)) {
        (true, true) => Next::Fork,
        (true, false) => one_next(loops, yes),
        (false, true) => one_next(loops, no),
        (false, false) => Next::Nothing,
    }
}

fn one_next(loops: &Loops, next: BlockId) -> Next {
    let place = next as usize;
    if loops.is_inside(place) && !is_header(loops, place) {
        Next::Block(place)
    } else {
        Next::Nothing
    }
}

/// Goes over the blocks of the loop that stand behind a test in the order.
fn advance_behind(
    blocks: &[Block],
    loops: &Loops,
    order: &[BlockId],
    fork: usize,
    unnamed: &[Value],
    additions: &mut Vec<Addition>,
) -> Result<(), NoMemory> {
    let most = additions.len().saturating_add(MOST_OF_ONE);
    let first = loops.rank(fork).saturating_add(1);
    let last = first.saturating_add(MOST_BLOCKS);
    for rank in first..last {
        match order.get(rank) {
            Some(block) => {
                if additions.len() < most && loops.is_inside(*block as usize) {
                    advance_ops(blocks, loops, fork, *block as usize, unnamed, additions)?;
                }
            }
            None => return Ok(()),
        }
    }
    Ok(())
}

fn advance_ops(
    blocks: &[Block],
    loops: &Loops,
    fork: usize,
    place: usize,
    unnamed: &[Value],
    additions: &mut Vec<Addition>,
) -> Result<(), NoMemory> {
    match blocks.get(place) {
        Some(block) => {
            for op in block.ops.as_slice() {
                advance_op(loops, *op, fork, unnamed, additions)?;
            }
            Ok(())
        }
        None => Ok(()),
    }
}

/// Adds the step of a counter, into a value that is not named so far.
fn advance_op(
    loops: &Loops,
    op: Op,
    fork: usize,
    unnamed: &[Value],
    additions: &mut Vec<Addition>,
) -> Result<(), NoMemory> {
    match unnamed.get(additions.len()) {
        Some(to) => match stepped(loops, op, *to) {
            Some(op) => {
                additions.push(Addition { block: fork, op })?;
                Ok(())
            }
            None => Ok(()),
        },
        None => Ok(()),
    }
}

/// The step of a counter that the loop writes once, by what it does not write, into another value.
fn stepped(loops: &Loops, op: Op, into: Value) -> Option<Op> {
    match op {
        Op::Compute {
            code,
            to,
            left,
            right,
        } => {
            let is_counter = left == Operand::Held(to) && loops.is_written_once(to);
            if is_step(code) && is_counter && loops.keeps(right) {
                Some(Op::Compute {
                    code,
                    to: into,
                    left,
                    right,
                })
            } else {
                None
            }
        }
        _ => None,
    }
}

fn is_step(code: Code) -> bool {
    match code {
        Code::Add | Code::Sub => true,
        _ => false,
    }
}
