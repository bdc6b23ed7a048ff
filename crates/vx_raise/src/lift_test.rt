// Whether an operation of a block, or of two, may be raised: past those before it in its block, to the ends of the blocks that lead
// there.

ghost use Rattle.std.specs.Prelude.{◌≡◌, ◌==◌, ◌&&◌, not};
ghost use Rattle.std.specs.List.{list_all};
ghost use Rattle.vx_flow.specs.Effects.{reads, writes};
ghost use Rattle.vx_flow.specs.Operands.{value_list, values_read};
ghost use Rattle.vx_raise.specs.Raising.{is_either, leads_to, lets_in, may_raise, result_of, same_op, takes_in};
ghost use Rattle.vx_raise.specs.Exchanging.{are_apart, loaded_from, may_pass, meet, stored_to};
ghost use Rattle.vx_raise.specs.Lifting.{can_lift, known_at, op_at, passes};

use crate::known::Known;
use vx_claims::known::{same_code, same_operand};
use vx_flow::arrays::may_meet;
use vx_flow::graph::{Array, ArrayId, Block, BlockId, Exit, Graph, Op, Value};
use vx_flow::operands::{Reads, read_by, written_by};

/// The blocks from which an operation is raised: the same twice where it is raised from one alone.
#[derive(Clone, Copy)]
pub struct Origins {
    pub block: BlockId,
    pub other: BlockId,
}

impl Origins {
    /// Whether a block is one of them.
    pub fn has(self, block: BlockId) -> bool
        ensures { result ≡ is_either self.block self.other block }
    {
        block == self.block || block == self.other
    }
}

/// Whether an exit leads to one of the blocks.
pub fn leads_to(from: Origins, exit: &Exit) -> bool
    ensures { result ≡ leads_to (is_either from.block from.other) exit.now }
{
    match exit {
        Exit::Goto(to) => from.has(*to),
        Exit::Split { yes, no, .. } => from.has(*yes) || from.has(*no),
        Exit::Call { next, .. } => from.has(*next),
        Exit::Return(_) | Exit::Ends(_) => false,
    }
}

/// The value that the operation writes, where it does nothing else and needs no input.
pub fn result_of(op: &Op) -> Option<Value>
    ensures { result ≡ result_of op.now }
{
    match op {
        Op::Compute { to, .. }
        | Op::Select { to, .. }
        | Op::Place { to, .. }
        | Op::Load { to, .. }
        | Op::Base { to, .. }
        | Op::PlaceIn { to, .. } => Some(*to),
        _ => None,
    }
}

/// Whether two operations that only write a value are the same; of two loads one may be dismissible.
pub fn same_op(first: &Op, second: &Op) -> bool
    ensures { result ≡ same_op first.now second.now }
{
    match (*first, *second) {
        (
            Op::Compute {
                code,
                to,
                left,
                right,
            },
            Op::Compute {
                code: other_code,
                to: other_to,
                left: other_left,
                right: other_right,
            },
        ) => {
            to == other_to
                && same_code(code, other_code)
                && same_operand(left, other_left)
                && same_operand(right, other_right)
        }
        (
            Op::Select {
                to,
                test,
                left,
                right,
            },
            Op::Select {
                to: other_to,
                test: other_test,
                left: other_left,
                right: other_right,
            },
        ) => {
            to == other_to
                && test == other_test
                && same_operand(left, other_left)
                && same_operand(right, other_right)
        }
        (
            Op::Place { to, array, index },
            Op::Place {
                to: other_to,
                array: other_array,
                index: other_index,
            },
        ) => to == other_to && array == other_array && same_operand(index, other_index),
        (
            Op::Load {
                to,
                array,
                place,
                ..
            },
            Op::Load {
                to: other_to,
                array: other_array,
                place: other_place,
                ..
            },
        ) => to == other_to && array == other_array && same_operand(place, other_place),
        (
            Op::Base { to, array, from },
            Op::Base {
                to: other_to,
                array: other_array,
                from: other_from,
            },
        ) => to == other_to && array == other_array && same_operand(from, other_from),
        (
            Op::PlaceIn {
                to,
                array,
                base,
                index,
            },
            Op::PlaceIn {
                to: other_to,
                array: other_array,
                base: other_base,
                index: other_index,
            },
        ) => {
            to == other_to
                && array == other_array
                && base == other_base
                && same_operand(index, other_index)
        }
        _ => false,
    }
}

/// Whether an exit does not read the value, which is not live at another block that it leads to.
fn lets_in(known: &Known, from: Origins, value: Value, exit: &Exit) -> bool
    ensures { result ≡ lets_in (known_at known.now.live known.now.noted) (is_either from.block from.other) value exit.now }
{
    match exit {
        Exit::Goto(_) => true,
        Exit::Split { test, yes, no } => {
            *test != value
                && (from.has(*yes) || !known.at(*yes, value))
                && (from.has(*no) || !known.at(*no, value))
        }
        _ => false,
    }
}

/// Whether an operation that writes the value may end a block, if that leads to where it is raised from.
fn takes_in(known: &Known, from: Origins, value: Value, block: &Block) -> bool
    ensures { result ≡ takes_in (known_at known.now.live known.now.noted) (is_either from.block from.other) value block.now }
{
    !leads_to(from, &block.exit)
        || (lets_in(known, from, value, &block.exit) && block.ops.len() < 512)
}

pub fn all_take_in(known: &Known, from: Origins, value: Value, blocks: &[Block]) -> bool
    ensures { result ≡ list_all (takes_in (known_at known.now.live known.now.noted) (is_either from.block from.other) value) blocks.now }
{
    for block in blocks {
        if !takes_in(known, from, value, block) {
            return false;
        }
    }
    true
}

// ---- operations of one block

fn is_other(value: Value, other: Option<Value>) -> bool
    ensures { result ≡ list_all (λ w. not (w == value)) (value_list other) }
{
    match other {
        Some(other) => other != value,
        None => true,
    }
}

#[tactic(auto, using(crate::proofs::LiftSteps::all_three))]
fn are_others(value: Value, read: &Reads) -> bool
    ensures { result ≡ list_all (λ w. not (w == value)) (values_read read.now) }
{
    is_other(value, read.first) && is_other(value, read.second) && is_other(value, read.third)
}

/// Whether the operation does not read the value.
fn is_unread(value: Value, op: &Op) -> bool
    ensures { result ≡ list_all (λ w. not (w == value)) (reads op.now) }
{
    let read = read_by(op);
    are_others(value, &read)
}

/// Whether the operation does not write the value.
fn is_unwritten(value: Value, op: &Op) -> bool
    ensures { result ≡ list_all (λ w. not (w == value)) (writes op.now) }
{
    is_other(value, written_by(op))
}

/// Whether the second operation does not read what the first writes.
fn is_apart(first: &Op, second: &Op) -> bool
    ensures { result ≡ are_apart (writes first.now) (reads second.now) }
{
    match written_by(first) {
        Some(value) => is_unread(value, second),
        None => true,
    }
}

fn loaded_from(op: &Op) -> Option<ArrayId>
    ensures { result ≡ loaded_from op.now }
{
    match op {
        Op::Load { array, .. } => Some(*array),
        _ => None,
    }
}

fn stored_to(op: &Op) -> Option<ArrayId>
    ensures { result ≡ stored_to op.now }
{
    match op {
        Op::Store { array, .. } => Some(*array),
        _ => None,
    }
}

/// Of two arrays, where both are there, whether they may share a word.
fn meet(arrays: &[Array], one: Option<ArrayId>, other: Option<ArrayId>) -> bool
    ensures { result ≡ meet arrays.now one other }
{
    match (one, other) {
        (Some(one), Some(other)) => may_meet(arrays, one, other),
        _ => false,
    }
}

/// Whether the second operation, which writes the value, stands apart from the first.
fn stands_apart(arrays: &[Array], value: Value, first: &Op, second: &Op) -> bool
    ensures { result ≡ (list_all (λ w. not (w == value)) (reads first.now) && list_all (λ w. not (w == value)) (writes first.now) && are_apart (writes first.now) (reads second.now) && not (meet arrays.now (loaded_from second.now) (stored_to first.now))) }
{
    is_unread(value, first)
        && is_unwritten(value, first)
        && is_apart(first, second)
        && !meet(arrays, loaded_from(second), stored_to(first))
}

/// Whether the second operation, which stands behind the first, may stand before it.
fn may_pass(arrays: &[Array], first: &Op, second: &Op) -> bool
    ensures { result ≡ may_pass arrays.now first.now second.now }
{
    match result_of(second) {
        Some(value) => stands_apart(arrays, value, first, second),
        None => false,
    }
}

/// Whether the operation may pass each of so many.
pub fn passes(arrays: &[Array], op: &Op, place: usize, ops: &[Op]) -> bool
    ensures { result ≡ passes arrays.now op.now place ops.now }
{
    if place == 0 {
        return true;
    }
    match ops.split_first() {
        Some((first, rest)) => {
            may_pass(arrays, first, op) && passes(arrays, op, place - 1, rest)
        }
        None => false,
    }
}
