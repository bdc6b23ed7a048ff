// The tests of bases: where one may be made and from what, and whether a value that is one is only that. Nothing here takes memory.

ghost use Rattle.std.specs.Prelude.{◌≡◌, ◌==◌, slice_get};
ghost use Rattle.std.specs.List.{list_all, list_any};
ghost use Rattle.vx_flow.specs.Sound.{block_keeps_base, is_array_kept, is_based, is_handed_well, is_made_from, is_parameter, is_result, is_stack, is_that, keeps_base, leaves_base, makes_base};

use crate::named::{is_right_value, is_zero};
use vx_flow::arrays::{base_at, has_base, is_handed};
use vx_flow::graph::{Array, Block, Exit, Graph, Op, Operand, Value};
use vx_flow::operands::is_value;

/// Whether the operation makes a place by the base of its array where the array was handed over and nowhere else, and a base of no
/// array that was, from what it is made of in words.
pub fn is_based(arrays: &[Array], op: &Op) -> bool
    ensures { result ≡ is_based arrays.now op.now }
{
    match op {
        Op::Place { array, .. } => !is_handed(arrays, *array),
        Op::Base { array, from, .. } => is_made_from(arrays, *array, from),
        Op::PlaceIn { array, base, .. } => is_that(*base, base_at(arrays, *array)),
        _ => true,
    }
}

/// The base of a local array is made from the stack pointer, that of a global one from 0.
fn is_made_from(arrays: &[Array], array: u32, from: &Operand) -> bool
    ensures { result ≡ is_made_from (slice_get arrays.now array) from.now }
{
    match arrays.get(array as usize) {
        Some(array) => is_made_of(array, from),
        None => false,
    }
}

fn is_made_of(array: &Array, from: &Operand) -> bool
    ensures { result ≡ is_made_from (Some array.now) from.now }
{
    if has_base(array) {
        return false;
    }
    if array.global {
        is_zero(from)
    } else {
        is_stack(from)
    }
}

fn is_stack(operand: &Operand) -> bool
    ensures { result ≡ is_stack operand.now }
{
    match operand {
        Operand::Stack => true,
        _ => false,
    }
}

/// Whether there is a value, and it is this one.
pub(crate) fn is_that(value: Value, found: Option<Value>) -> bool
    ensures { result ≡ is_that value found }
{
    match found {
        Some(other) => other == value,
        None => false,
    }
}

/// Whether the operation makes a base and writes it into the value.
pub(crate) fn makes_base(value: Value, op: &Op) -> bool
    ensures { result ≡ makes_base value op.now }
{
    match op {
        Op::Base { to, .. } => *to == value,
        _ => false,
    }
}

/// Whether the operation writes the value only as a base, and reads it only as the base of a place.
fn keeps_base(value: Value, op: &Op) -> bool
    ensures { result ≡ keeps_base value op.now }
{
    match op {
        Op::Compute {
            code,
            to,
            left,
            right,
        } => *to != value && !is_value(value, left) && !is_right_value(value, *code, right),
        Op::Select {
            to,
            test,
            left,
            right,
        } => *to != value && *test != value && !is_value(value, left) && !is_value(value, right),
        Op::Place { to, index, .. } => *to != value && !is_value(value, index),
        Op::Load { to, place, .. } => *to != value && !is_value(value, place),
        Op::Store { place, from, .. } => !is_value(value, place) && !is_value(value, from),
        Op::More { to } => *to != value,
        Op::Input { to } => *to != value,
        Op::Text { .. } => true,
        Op::Decimal { from } => !is_value(value, from),
        Op::Across { to, from } => *to != value && *from != value,
        Op::Base { .. } => true,
        Op::PlaceIn { to, index, .. } => *to != value && !is_value(value, index),
    }
}

/// Whether the exit reads the value only as an argument, and does not write it.
fn leaves_base(value: Value, exit: &Exit) -> bool
    ensures { result ≡ leaves_base value exit.now }
{
    match exit {
        Exit::Goto(_) => true,
        Exit::Split { test, .. } => *test != value,
        Exit::Call { result, .. } => !is_result(value, *result),
        Exit::Return(operand) => !is_value(value, operand),
        Exit::Ends(_) => true,
    }
}

/// Whether a call has a result, and writes it into this value.
pub(crate) fn is_result(value: Value, result_of_call: Option<Value>) -> bool
    ensures { result ≡ is_result value result_of_call }
{
    match result_of_call {
        Some(written) => written == value,
        None => false,
    }
}

fn block_keeps_base(value: Value, block: &Block) -> bool
    ensures { result ≡ block_keeps_base value block.now }
{
    keep_base(value, block.ops.as_slice()) && leaves_base(value, &block.exit)
}

fn keep_base(value: Value, ops: &[Op]) -> bool
    ensures { result ≡ list_all (keeps_base value) ops.now }
{
    for op in ops {
        if !keeps_base(value, op) {
            return false;
        }
    }
    true
}

/// Whether the value is only a base, wherever it stands.
pub(crate) fn blocks_keep_base(value: Value, blocks: &[Block]) -> bool
    ensures { result ≡ list_all (block_keeps_base value) blocks.now }
{
    for block in blocks {
        if !block_keeps_base(value, block) {
            return false;
        }
    }
    true
}

/// Whether the value is a parameter.
pub(crate) fn is_parameter(graph: &Graph, value: Value) -> bool
    ensures { result ≡ is_parameter graph.now value }
{
    is_among(graph.parameters.as_slice(), value)
}

fn is_among(values: &[Value], value: Value) -> bool
    ensures { result ≡ list_any (λ p. p == value) values.now }
{
    for other in values {
        if *other == value {
            return true;
        }
    }
    false
}

/// Whether each array that was handed over has no words of its own, and its base is a parameter and only a base.
pub(crate) fn are_arrays_kept(graph: &Graph, arrays: &[Array]) -> bool
    ensures { result ≡ list_all (is_array_kept graph.now) arrays.now }
{
    for array in arrays {
        if !is_array_kept(graph, array) {
            return false;
        }
    }
    true
}

fn is_array_kept(graph: &Graph, array: &Array) -> bool
    ensures { result ≡ is_array_kept graph.now array.now }
{
    is_handed_well(graph, array, array.base)
}

fn is_handed_well(graph: &Graph, array: &Array, base: Option<Value>) -> bool
    ensures { result ≡ is_handed_well graph.now array.now base }
{
    match base {
        Some(base) => {
            !array.global
                && array.words == 0
                && is_parameter(graph, base)
                && blocks_keep_base(base, graph.blocks.as_slice())
        }
        None => true,
    }
}
