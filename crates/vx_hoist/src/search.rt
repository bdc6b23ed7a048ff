// What may be computed before loops: for each loop the operations that each of its turns does and whose operands it does not
// write. They are looked for and owe nothing, since what does not pass the test is not put.

use crate::early::advance_all;
use std::alloc::Global;
use vx_base::arithmetic::Code;
use vx_base::listed::Listed;
use vx_base::outcome::NoMemory;
use vx_flow::graph::{Bank, Block, BlockId, Exit, Graph, Op, Operand, Value};
use vx_flow::operands::{held_by, read_by, written_by};
use vx_loops::{Loops, loop_at, loops_of, spine_of};

/// How many operations are put before a loop at most.
const MOST_ADDED: usize = 8;

/// The most operations of a block at whose end more are put.
const MOST_BEFORE: usize = 256;

/// An operation that is put at the end of a block.
#[derive(Clone, Copy)]
pub struct Addition {
    pub block: usize,
    pub op: Op,
}

/// What was found for a graph: which values it names, and what is put.
#[derive(Drop)]
pub struct Found {
    pub named: Vec<bool>,
    pub additions: Vec<Addition>,
}

/// A value of a loop that holds what a value before the loop holds.
#[derive(Clone, Copy)]
struct Copied {
    value: Value,
    from: Value,
}

/// What is looked for.
#[derive(Clone, Copy)]
pub enum Aim {
    /// What each turn of a loop computes anew, before the loop.
    Before,
    /// What the next turn of a loop begins with, before a test of this one.
    Early,
}

/// What may be put in each of the graphs of a program.
pub(crate) fn find_all(alloc: Global, graphs: &[Graph], aim: Aim) -> Result<Vec<Found>, NoMemory> {
    let mut all = Vec::new(alloc);
    for graph in graphs {
        all.push(find_additions(alloc, graph, aim)?)?;
    }
    Ok(all)
}

/// Whether anything may be put.
pub(crate) fn has_additions(all: &[Found]) -> bool {
    for found in all {
        if !found.additions.is_empty() {
            return true;
        }
    }
    false
}

/// What may be put, in the order in which it stands.
fn find_additions(alloc: Global, graph: &Graph, aim: Aim) -> Result<Found, NoMemory> {
    let named = named_in(alloc, graph)?;
    let unnamed = unnamed_in(alloc, named.as_slice(), graph.banks.as_slice())?;
    let mut additions = Vec::new(alloc);
    if unnamed.len() > 0 {
        match aim {
            Aim::Before => hoist_all(alloc, graph, unnamed.as_slice(), &mut additions)?,
            Aim::Early => advance_all(alloc, graph, unnamed.as_slice(), &mut additions)?,
        }
    }
    Ok(Found { named, additions })
}

/// Adds what may be computed before the loops of a graph.
fn hoist_all(
    alloc: Global,
    graph: &Graph,
    unnamed: &[Value],
    additions: &mut Vec<Addition>,
) -> Result<(), NoMemory> {
    let mut loops = loops_of(alloc, graph)?;
    let hoisted = hoist_each(
        alloc,
        graph.blocks.as_slice(),
        &mut loops,
        unnamed,
        additions,
    );
    drop(loops);
    hoisted
}

/// Goes over the blocks, each as the header of a loop.
fn hoist_each(
    alloc: Global,
    blocks: &[Block],
    loops: &mut Loops,
    unnamed: &[Value],
    additions: &mut Vec<Addition>,
) -> Result<(), NoMemory> {
    for header in 0..blocks.len() {
        hoist_from(alloc, blocks, loops, header, unnamed, additions)?;
    }
    Ok(())
}

/// The operations that are put at the end of a block.
pub(crate) fn ops_at(
    alloc: Global,
    additions: &[Addition],
    block: usize,
) -> Result<Listed<Op>, NoMemory> {
    let mut ops = Listed::new(alloc);
    for addition in additions {
        if addition.block == block {
            ops.push(addition.op)?;
        }
    }
    Ok(ops)
}

/// A mark for each value that a graph names.
fn named_in(alloc: Global, graph: &Graph) -> Result<Vec<bool>, NoMemory> {
    let mut named = vec![in alloc; false; graph.banks.len()]?;
    for parameter in graph.parameters.as_slice() {
        name(&mut named, *parameter);
    }
    for block in graph.blocks.as_slice() {
        name_block(&mut named, block);
    }
    Ok(named)
}

fn name(named: &mut Vec<bool>, value: Value) {
    let place = value as usize;
    if place < named.len() {
        named[place] = true;
    }
}

fn name_if(named: &mut Vec<bool>, value: Option<Value>) {
    match value {
        Some(value) => name(named, value),
        None => {}
    }
}

fn name_block(named: &mut Vec<bool>, block: &Block) {
    for op in block.ops.as_slice() {
        name_op(named, op);
    }
    name_exit(named, &block.exit);
}

fn name_op(named: &mut Vec<bool>, op: &Op) {
    let read = read_by(op);
    name_if(named, written_by(op));
    name_if(named, read.first);
    name_if(named, read.second);
    name_if(named, read.third);
}

fn name_exit(named: &mut Vec<bool>, exit: &Exit) {
    match exit {
        Exit::Split { test, .. } => name(named, *test),
        Exit::Call {
            arguments,
            result: held,
            ..
        } => {
            for argument in arguments.as_slice() {
                name_if(named, held_by(argument));
            }
            name_if(named, *held);
        }
        Exit::Return(operand) => name_if(named, held_by(operand)),
        _ => {}
    }
}

/// The general values that are not named.
fn unnamed_in(alloc: Global, named: &[bool], banks: &[Bank]) -> Result<Vec<Value>, NoMemory> {
    let mut unnamed = Vec::new(alloc);
    for (place, bank) in banks.iter().enumerate() {
        let free = match named.get(place) {
            Some(is_named) => !*is_named,
            None => false,
        };
        if free && *bank == Bank::General && place < u32::MAX as usize {
            unnamed.push(place as Value)?;
        }
    }
    Ok(unnamed)
}

/// Adds what may be computed before the loop of a header.
fn hoist_from(
    alloc: Global,
    blocks: &[Block],
    loops: &mut Loops,
    header: usize,
    unnamed: &[Value],
    additions: &mut Vec<Addition>,
) -> Result<(), NoMemory> {
    match loop_at(alloc, blocks, loops, header)? {
        Some(before) => {
            if has_room(blocks, before) {
                let spine = spine_of(alloc, blocks, loops, header)?;
                hoist_along(
                    alloc,
                    blocks,
                    loops,
                    spine.as_slice(),
                    before,
                    unnamed,
                    additions,
                )?;
            }
            Ok(())
        }
        None => Ok(()),
    }
}

pub(crate) fn has_room(blocks: &[Block], before: usize) -> bool {
    match blocks.get(before) {
        Some(block) => block.ops.len() <= MOST_BEFORE,
        None => false,
    }
}

/// Goes along the blocks that each turn of a loop passes.
fn hoist_along(
    alloc: Global,
    blocks: &[Block],
    loops: &Loops,
    spine: &[BlockId],
    before: usize,
    unnamed: &[Value],
    additions: &mut Vec<Addition>,
) -> Result<(), NoMemory> {
    let mut copied = Vec::new(alloc);
    for place in spine {
        match blocks.get(*place as usize) {
            Some(block) => {
                hoist_ops(
                    loops,
                    block.ops.as_slice(),
                    before,
                    unnamed,
                    &mut copied,
                    additions,
                )?
            }
            None => {}
        }
    }
    Ok(())
}

fn hoist_ops(
    loops: &Loops,
    ops: &[Op],
    before: usize,
    unnamed: &[Value],
    copied: &mut Vec<Copied>,
    additions: &mut Vec<Addition>,
) -> Result<(), NoMemory> {
    for op in ops {
        if copied.len() < MOST_ADDED {
            hoist_op(loops, *op, before, unnamed, copied, additions)?;
        }
    }
    Ok(())
}

/// Adds an operation that gives the same in each turn, into a value that is not named so far.
fn hoist_op(
    loops: &Loops,
    op: Op,
    before: usize,
    unnamed: &[Value],
    copied: &mut Vec<Copied>,
    additions: &mut Vec<Addition>,
) -> Result<(), NoMemory> {
    match unnamed.get(additions.len()) {
        Some(to) => match moved_out(loops, op, *to, copied.as_slice()) {
            Some(moved) => {
                additions.push(Addition {
                    block: before,
                    op: moved.op,
                })?;
                copied.push(Copied {
                    value: moved.value,
                    from: *to,
                })?;
                Ok(())
            }
            None => Ok(()),
        },
        None => Ok(()),
    }
}

/// An operation as it is before the loop, and the value that it writes in the loop.
#[derive(Clone, Copy)]
struct Moved {
    op: Op,
    value: Value,
}

fn moved_out(loops: &Loops, op: Op, to: Value, copied: &[Copied]) -> Option<Moved> {
    match op {
        Op::Compute {
            code,
            to: value,
            left,
            right,
        } => {
            if !is_worth(code) || !loops.is_written_once(value) {
                return None;
            }
            let left = outside(loops, left, copied)?;
            let right = outside(loops, right, copied)?;
            Some(Moved {
                op: Op::Compute {
                    code,
                    to,
                    left,
                    right,
                },
                value,
            })
        }
        Op::Place {
            to: value,
            array,
            index,
        } => {
            if !loops.is_written_once(value) {
                return None;
            }
            let index = outside(loops, index, copied)?;
            Some(Moved {
                op: Op::Place { to, array, index },
                value,
            })
        }
        _ => None,
    }
}

/// Whether a computation is put before a loop: no move, and no test.
fn is_worth(code: Code) -> bool {
    match code {
        Code::Mov => false,
        Code::ToBranch(_) => false,
        _ => true,
    }
}

/// What holds before a loop what an operand holds in each turn.
fn outside(loops: &Loops, operand: Operand, copied: &[Copied]) -> Option<Operand> {
    match operand {
        Operand::Held(value) => {
            if loops.is_written(value) {
                source_of(copied, value)
            } else {
                Some(operand)
            }
        }
        Operand::Number(_) => Some(operand),
        Operand::Stack => None,
    }
}

fn source_of(copied: &[Copied], value: Value) -> Option<Operand> {
    for pair in copied {
        if pair.value == value {
            return Some(Operand::Held(pair.from));
        }
    }
    None
}
