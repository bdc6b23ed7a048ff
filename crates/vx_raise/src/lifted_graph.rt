// A graph with operations raised, each where it may be.

ghost use Rattle.std.specs.Prelude.{◌≡◌, ◌&&◌, ◌++◌, ◌∷◌, [], ◌<◌, ◌^◌, length, true, Some, IfOk, IfSome, if◌then◌else◌, slice_get};
ghost use Rattle.std.specs.List.{list_all};
ghost use Rattle.vx_flow.specs.Effects.{dismissed};
ghost use Rattle.vx_raise.specs.Raising.{is_either, leads_to, may_raise, result_of, result_of_first, same_ops};
ghost use Rattle.vx_raise.specs.Moving.{GraphMoved};
ghost use Rattle.vx_raise.specs.Lifting.{blocks_of, can_lift, can_lift_op, known_at, lifted, lifted_block, lifted_blocks, noted_of, op_at, ops_left, passes_at, passes_in, RaisesOne, without};

use crate::known::{Known, Move, Noted};
use crate::lift_test::{Origins, all_take_in, leads_to, passes, result_of, same_op};
use std::alloc::Global;
use vx_base::listed::{Listed, copied};
use vx_base::outcome::NoMemory;
use vx_flow::copies::{copied_exit, copied_graph, with_blocks};
use vx_flow::graph::{Block, BlockId, Exit, Graph, Op, Value};
use vx_flow::live;
use vx_flow::operands::dismissed;

// ---- whether it may be

/// The operation at a place of a block, if one is there.
pub(crate) fn op_at(graph: &Graph, block: BlockId, place: usize) -> Option<Op>
    ensures { result ≡ op_at graph.now block place }
{
    match graph.blocks.as_slice().get(block as usize) {
        Some(found) => op_in(found, place),
        None => None,
    }
}

fn op_in(block: &Block, place: usize) -> Option<Op>
    ensures { result ≡ slice_get block.now.ops place }
{
    match block.ops.as_slice().get(place) {
        Some(op) => Some(*op),
        None => None,
    }
}

fn passes_in(op: &Op, graph: &Graph, block: BlockId, place: usize) -> bool
    ensures { result ≡ passes_in graph.now.arrays op.now place (slice_get graph.now.blocks block) }
{
    match graph.blocks.as_slice().get(block as usize) {
        Some(found) => passes(graph.arrays.as_slice(), op, place, found.ops.as_slice()),
        None => false,
    }
}

fn may_raise(known: &Known, graph: &Graph, one: Move, op: &Op) -> bool
    ensures { result ≡ may_raise (known_at known.now.live known.now.noted) graph.now (blocks_of one) (result_of op.now) }
{
    match result_of(op) {
        Some(value) => all_take_in(known, origins_of(one), value, graph.blocks.as_slice()),
        None => false,
    }
}

/// The blocks from which a move raises.
fn origins_of(one: Move) -> Origins
    ensures { result ≡ record { block = one.block; other = one.other } }
{
    Origins {
        block: one.block,
        other: one.other,
    }
}

fn can_lift_op(known: &Known, graph: &Graph, one: Move, op: &Op) -> bool
    ensures { result ≡ can_lift_op (known_at known.now.live known.now.noted) graph.now one (Some op.now) }
{
    passes_in(op, graph, one.block, one.place as usize) && may_raise(known, graph, one, op)
}

/// Whether the operation is in the other block of a move too, and may pass what stands before it there.
fn is_there(graph: &Graph, one: Move, op: &Op) -> bool
    ensures { result ≡ (same_ops (Some op.now) (op_at graph.now one.other one.other_place) && passes_at graph.now one.other one.other_place (op_at graph.now one.other one.other_place)) }
{
    match op_at(graph, one.other, one.other_place as usize) {
        Some(there) => {
            same_op(op, &there) && passes_in(&there, graph, one.other, one.other_place as usize)
        }
        None => false,
    }
}

/// Whether the operation of a move may be raised.
pub fn can_lift(known: &Known, graph: &Graph, one: Move) -> bool
    ensures { result ≡ can_lift (known_at known.now.live known.now.noted) graph.now one }
{
    match op_at(graph, one.block, one.place as usize) {
        Some(op) => {
            !(0 == one.block || 0 == one.other)
                && (one.block == one.other || is_there(graph, one, &op))
                && can_lift_op(known, graph, one, &op)
        }
        None => false,
    }
}

// ---- the graph

fn ops_without(alloc: Global, ops: &[Op], place: usize) -> Result<Listed<Op>, NoMemory>
    ensures { IfOk result (λ list. list ≡ without place ops.now) }
{
    let mut list = Listed::new(alloc);
    for (index, op) in ops.iter().enumerate() {
        push_unless(&mut list, index == place, *op)?;
    }
    Ok(list)
}

fn push_unless(list: &mut Listed<Op>, is_out: bool, op: Op) -> Result<(), NoMemory>
    ensures { IfOk result (λ _. list.new ≡ list.old ++ (if is_out then [] else op ∷ [])) }
{
    if !is_out {
        list.push(op)?;
    }
    Ok(())
}

fn ops_left(alloc: Global, one: Move, number: BlockId, ops: &[Op]) -> Result<Listed<Op>, NoMemory>
    ensures { IfOk result (λ list. list ≡ ops_left one number ops.now) }
{
    if number == one.block {
        ops_without(alloc, ops, one.place as usize)
    } else if number == one.other {
        ops_without(alloc, ops, one.other_place as usize)
    } else {
        let list = copied(alloc, ops)?;
        Ok(list)
    }
}

fn push_end(list: &mut Listed<Op>, from: Origins, op: &Op, exit: &Exit) -> Result<(), NoMemory>
    ensures { IfOk result (λ _. list.new ≡ list.old ++ (if leads_to (is_either from.block from.other) exit.now then dismissed op.now ∷ [] else [])) }
{
    if leads_to(from, exit) {
        list.push(dismissed(*op))?;
    }
    Ok(())
}

/// The block with a number, where an operation of another, or of it, is raised.
fn lifted_block(
    alloc: Global,
    one: Move,
    op: &Op,
    number: BlockId,
    old: &Block,
) -> Result<Block, NoMemory>
    ensures { IfOk result (λ new. new ≡ lifted_block one op.now number old.now) }
{
    let mut ops = ops_left(alloc, one, number, old.ops.as_slice())?;
    push_end(&mut ops, origins_of(one), op, &old.exit)?;
    let exit = copied_exit(alloc, &old.exit)?;
    Ok(Block { ops, exit })
}

fn lifted_blocks(
    alloc: Global,
    one: Move,
    op: &Op,
    blocks: &[Block],
) -> Result<Listed<Block>, NoMemory>
    requires { length blocks.now < 2 ^ 32 }
    ensures { IfOk result (λ new. new ≡ lifted_blocks one op.now 0 blocks.now) }
{
    let mut new = Listed::new(alloc);
    for (index, old) in blocks.iter().enumerate() {
        let lifted = lifted_block(alloc, one, op, index as u32, old)?;
        new.push(lifted)?;
    }
    Ok(new)
}

fn lifted(alloc: Global, graph: &Graph, one: Move, op: &Op) -> Result<Graph, NoMemory>
    ensures { IfOk result (λ new. new ≡ record graph.now { blocks = lifted_blocks one op.now 0 graph.now.blocks }) }
{
    let _count = graph.blocks.len();
    let blocks = lifted_blocks(alloc, one, op, graph.blocks.as_slice())?;
    with_blocks(alloc, graph, blocks)
}

// ---- one move after the other

/// A graph with an operation raised, and the value that it writes.
#[derive(Drop)]
pub(crate) struct Raised {
    pub graph: Graph,
    pub value: Value,
}

/// The graph with one more operation raised, where it may be.
pub(crate) fn raised_once(
    alloc: Global,
    known: &Known,
    graph: &Graph,
    one: Move,
) -> Result<Option<Raised>, NoMemory>
    ensures { IfOk result (λ found. IfSome found (λ raised. RaisesOne known.now.live known.now.noted graph.now one raised.value raised.graph)) }
{
    if !can_lift(known, graph, one) {
        return Ok(None);
    }
    match op_at(graph, one.block, one.place as usize) {
        Some(op) => raised_by(alloc, graph, one, &op),
        None => Ok(None),
    }
}

fn raised_by(alloc: Global, graph: &Graph, one: Move, op: &Op) -> Result<Option<Raised>, NoMemory>
    ensures { IfOk result (λ found. IfSome found (λ raised. (result_of op.now ≡ Some raised.value) × (raised.graph ≡ record graph.now { blocks = lifted_blocks one op.now 0 graph.now.blocks }))) }
{
    match result_of(op) {
        Some(value) => {
            let graph = lifted(alloc, graph, one, op)?;
            Ok(Some(Raised { graph, value }))
        }
        None => Ok(None),
    }
}

/// Notes the value at the blocks from which an operation that writes it was raised.
fn note(noted: &mut Listed<Noted>, one: Move, value: Value) -> Result<(), NoMemory>
    ensures { IfOk result (λ _. noted.new ≡ noted.old ++ noted_of one value) }
{
    noted.push(Noted {
        block: one.block,
        value,
    })?;
    noted.push(Noted {
        block: one.other,
        value,
    })?;
    Ok(())
}

/// The graph with operations raised, one after the other, each where it may be; the others stay. What is live is found once.
pub fn raise_all(alloc: Global, graph: &Graph, moves: &[Move]) -> Result<Graph, NoMemory>
    ensures { IfOk result (λ new. GraphMoved graph.now new) }
{
    let live = live(alloc, graph)?;
    let mut known = Known {
        live,
        noted: Listed::new(alloc),
    };
    let mut current = copied_graph(alloc, graph)?;
    for one in moves {
        match raised_once(alloc, &known, &current, *one)? {
            Some(found) => {
                let Raised { graph, value } = found;
                current = graph;
                note(&mut known.noted, *one, value)?;
            }
            None => {}
        }
    }
    Ok(current)
}
