// What is asked of a call by itself.

ghost use Rattle.std.specs.Prelude.{◌≡◌, ◌≤◌, length};
ghost use Rattle.vx_flow.specs.Operands.{value_list};
ghost use Rattle.vx_inline.specs.Finding.{seen};
ghost use Rattle.vx_inline.specs.Fitting.{are_global, are_left_short, calls_nothing, fits, has_few, is_base_made, is_calling, is_entered_short, is_left_short, make_no_bases, makes_no_base};

use crate::found_call::FoundCall;
use vx_flow::graph::{Array, Block, Exit, Op, Value};
use vx_shape::shape_test::MOST_OPS;

/// Whether the callee has no call, makes no base and has no array but globals, and the blocks stay short.
pub(crate) fn fits(found: &FoundCall) -> bool
    ensures { result ≡ fits (seen found.now) }
{
    calls_nothing(found.callee.blocks.as_slice())
        && are_global(found.callee.arrays.as_slice())
        && is_entered_short(found)
        && are_left_short(found.callee.blocks.as_slice(), found.result)
        && make_no_bases(found.callee.blocks.as_slice())
}

/// Whether no block ends by a call.
pub(crate) fn calls_nothing(blocks: &[Block]) -> bool
    ensures { result ≡ calls_nothing blocks.now }
{
    for block in blocks {
        if is_calling(block) {
            return false;
        }
    }
    true
}

pub(crate) fn is_calling(block: &Block) -> bool
    ensures { result ≡ is_calling block.now }
{
    match &block.exit {
        Exit::Call { .. } => true,
        Exit::Goto(_) | Exit::Split { .. } | Exit::Return(_) | Exit::Ends(_) => false,
    }
}

/// Whether all arrays are globals.
pub(crate) fn are_global(arrays: &[Array]) -> bool
    ensures { result ≡ are_global arrays.now }
{
    for array in arrays {
        if !array.global {
            return false;
        }
    }
    true
}

/// Whether no block makes the base of an array.
fn make_no_bases(blocks: &[Block]) -> bool
    ensures { result ≡ make_no_bases blocks.now }
{
    for block in blocks {
        if !makes_no_base(block.ops.as_slice()) {
            return false;
        }
    }
    true
}

fn makes_no_base(ops: &[Op]) -> bool
    ensures { result ≡ makes_no_base ops.now }
{
    for op in ops {
        if is_base_made(op) {
            return false;
        }
    }
    true
}

fn is_base_made(op: &Op) -> bool
    ensures { result ≡ is_base_made op.now }
{
    match op {
        Op::Base { .. } => true,
        _ => false,
    }
}

/// Whether the block that calls is short with a move for each argument.
fn is_entered_short(found: &FoundCall) -> bool
    ensures { result ≡ is_entered_short (seen found.now) }
{
    found.block.ops.len() + found.arguments.len() <= MOST_OPS
}

/// Whether each block that returns is short with a move to what takes the result.
fn are_left_short(blocks: &[Block], taker: Option<Value>) -> bool
    ensures { result ≡ are_left_short taker blocks.now }
{
    for block in blocks {
        if !is_left_short(block, taker) {
            return false;
        }
    }
    true
}

fn is_left_short(block: &Block, taker: Option<Value>) -> bool
    ensures { result ≡ is_left_short taker block.now }
{
    match &block.exit {
        Exit::Return(_) => block.ops.len() + count_of(taker) <= MOST_OPS,
        Exit::Goto(_) | Exit::Split { .. } | Exit::Call { .. } | Exit::Ends(_) => true,
    }
}

fn count_of(taker: Option<Value>) -> usize
    ensures is { result ≡ length (value_list taker) }
    ensures few { result ≤ 1 }
{
    match taker {
        Some(_) => 1,
        None => 0,
    }
}

/// Whether blocks have at most so many operations together.
pub(crate) fn has_few(blocks: &[Block], most: u32) -> bool
    ensures { result ≡ has_few most blocks.now }
{
    let mut left = most as usize;
    for block in blocks {
        if block.ops.len() > left {
            return false;
        }
        left -= block.ops.len();
    }
    true
}
