// Whether what a graph names of its program is there. Nothing here takes memory.

ghost use Rattle.std.specs.Prelude.{◌≡◌, ◌==◌, not, slice_get};
ghost use Rattle.std.specs.List.{list_all};
ghost use Rattle.vx_flow.specs.Sound.{are_distinct, begins_with, has_parameters, is_block_there, is_call_there, is_global, is_no_global, is_text_there};

use crate::arguments::takes;
use vx_flow::arrays::has_base;
use vx_flow::graph::{Array, Block, Exit, Flow, Global, Graph, Op, Value};

/// Whether the function is there and has so many parameters.
pub fn has_parameters(count: usize, functions: &[Graph], function: u32) -> bool
    ensures { result ≡ has_parameters count (slice_get functions.now function) }
{
    match functions.get(function as usize) {
        Some(graph) => graph.parameters.len() == count,
        None => false,
    }
}

/// Whether the texts that blocks of a graph print and the functions that they call are there, and take the arguments.
pub fn are_blocks_there(flow: &Flow, graph: &Graph, blocks: &[Block]) -> bool
    ensures { result ≡ list_all (is_block_there flow.now graph.now) blocks.now }
{
    for block in blocks {
        if !is_block_there(flow, graph, block) {
            return false;
        }
    }
    true
}

fn is_block_there(flow: &Flow, graph: &Graph, block: &Block) -> bool
    ensures { result ≡ is_block_there flow.now graph.now block.now }
{
    are_texts_there(flow, block.ops.as_slice()) && is_call_there(flow, graph, &block.exit)
}

pub(crate) fn are_texts_there(flow: &Flow, ops: &[Op]) -> bool
    ensures { result ≡ list_all (is_text_there flow.now) ops.now }
{
    for op in ops {
        if !is_text_there(flow, op) {
            return false;
        }
    }
    true
}

fn is_text_there(flow: &Flow, op: &Op) -> bool
    ensures { result ≡ is_text_there flow.now op.now }
{
    match op {
        Op::Text { number } => (*number as usize) < flow.texts.len(),
        _ => true,
    }
}

/// The function that is called is there, and takes the arguments.
fn is_call_there(flow: &Flow, graph: &Graph, exit: &Exit) -> bool
    ensures { result ≡ is_call_there flow.now graph.now exit.now }
{
    match exit {
        Exit::Call {
            function,
            arguments,
            ..
        } => takes(
            graph,
            arguments.as_slice(),
            flow.functions.as_slice(),
            *function,
        ),
        _ => true,
    }
}

/// Whether no value stands twice. A function has few parameters.
pub fn are_distinct(values: &[Value]) -> bool
    ensures { result ≡ are_distinct values.now }
{
    for (place, value) in values.iter().enumerate() {
        if !are_others(*value, &values[place + 1..]) {
            return false;
        }
    }
    true
}

/// Whether no value of a list is this one.
pub(crate) fn are_others(value: Value, values: &[Value]) -> bool
    ensures { result ≡ list_all (λ u. not (u == value)) values.now }
{
    for other in values {
        if *other == value {
            return false;
        }
    }
    true
}

/// The globals in their order, with their words, and then no other global.
pub fn begins_with(globals: &[Global], arrays: &[Array]) -> bool
    ensures { result ≡ begins_with globals.now arrays.now }
{
    let mut left = arrays;
    for global in globals {
        match left {
            [array, later @ ..] => {
                if !is_global(array, global.words) {
                    return false;
                }
                left = later;
            }
            [] => return false,
        }
    }
    are_no_globals(left)
}

fn is_global(array: &Array, words: u32) -> bool
    ensures { result ≡ is_global words array.now }
{
    array.global && array.words == words && !has_base(array)
}

fn are_no_globals(arrays: &[Array]) -> bool
    ensures { result ≡ list_all is_no_global arrays.now }
{
    for array in arrays {
        if !is_no_global(array) {
            return false;
        }
    }
    true
}

fn is_no_global(array: &Array) -> bool
    ensures { result ≡ is_no_global array.now }
{
    !array.global
}
