// What a block does: its operations, and how it is left.

ghost use Rattle.std.specs.Prelude.{◌≡◌, IfOk, Some, map, slice_get};
ghost use Rattle.std.specs.Option.{option_map};
ghost use Rattle.vx_flow.specs.Effects.{held};
ghost use Rattle.vx_flow.specs.Meaning.{Arrives, block_hop, by_test, hop_of, known, leave, leaves};
ghost use Rattle.vx_tally.specs.Machine.{graph_hop, hop_from};
ghost use Rattle.vx_tally.specs.Storage.{setting_in, state_of};

use crate::ends::Left;
use crate::operations::{execute_all, is_one};
use crate::storage::Storage;
use std::alloc::Global;
use vx_base::listed::Listed;
use vx_base::outcome::NoMemory;
use vx_flow::graph::{Block, BlockId, Exit, Flow, Graph, Operand};

/// What a block of a function does.
pub fn run_block(
    alloc: Global,
    storage: &mut Storage,
    flow: &Flow,
    function: u32,
    passed: &[Option<usize>],
    base: usize,
    number: BlockId,
) -> Result<Left, NoMemory>
    ensures { IfOk result (λ left. graph_hop flow.now (slice_get flow.now.functions function) passed.now base number (state_of storage.old) ≡ hop_from number (state_of storage.new) left) }
{
    match flow.functions.as_slice().get(function as usize) {
        Some(graph) => run_block_of(alloc, storage, flow, graph, passed, base, number),
        None => Ok(Left::Wrong),
    }
}

fn run_block_of(
    alloc: Global,
    storage: &mut Storage,
    flow: &Flow,
    graph: &Graph,
    passed: &[Option<usize>],
    base: usize,
    number: BlockId,
) -> Result<Left, NoMemory>
    ensures { IfOk result (λ left. hop_of (setting_in flow.now passed.now base) number (slice_get graph.now.blocks number) (state_of storage.old) ≡ hop_from number (state_of storage.new) left) }
{
    match graph.blocks.as_slice().get(number as usize) {
        Some(block) => run_through(alloc, storage, flow, block, passed, base, number),
        None => Ok(Left::Wrong),
    }
}

fn run_through(
    alloc: Global,
    storage: &mut Storage,
    flow: &Flow,
    block: &Block,
    passed: &[Option<usize>],
    base: usize,
    number: BlockId,
) -> Result<Left, NoMemory>
    ensures { IfOk result (λ left. block_hop (setting_in flow.now passed.now base) number block.now.ops block.now.exit (state_of storage.old) ≡ hop_from number (state_of storage.new) left) }
{
    let done = execute_all(storage, flow, passed, base, block.ops.as_slice())?;
    if !done {
        return Ok(Left::Wrong);
    }
    let left = leave(alloc, storage, number, &block.exit)?;
    Ok(left)
}

/// How a block is left by its exit.
fn leave(alloc: Global, storage: &Storage, number: BlockId, exit: &Exit) -> Result<Left, NoMemory>
    ensures { IfOk result (λ left. leave number exit.now (state_of storage.now) ≡ hop_from number (state_of storage.now) left) }
{
    match exit {
        Exit::Goto(to) => Ok(Left::Arrives(*to)),
        Exit::Split { test, yes, no } => Ok(split(
            storage,
            number,
            storage.value(*test),
            *yes,
            *no,
        )),
        Exit::Call {
            function,
            arguments,
            result,
            next,
        } => match known(alloc, storage, arguments.as_slice())? {
            Some(arguments) => Ok(Left::Calls {
                function: *function,
                arguments,
                result: *result,
                next: *next,
            }),
            None => Ok(Left::Wrong),
        },
        Exit::Return(operand) => Ok(leave_with(storage, storage.held(operand))),
        Exit::Ends(trap) => Ok(Left::Stops(*trap)),
    }
}

fn split(storage: &Storage, number: BlockId, test: Option<i32>, yes: BlockId, no: BlockId) -> Left
    ensures { by_test test (Arrives number yes (state_of storage.now)) (Arrives number no (state_of storage.now)) ≡ hop_from number (state_of storage.now) result }
{
    match test {
        Some(answer) => {
            if is_one(answer) {
                Left::Arrives(yes)
            } else {
                Left::Arrives(no)
            }
        }
        None => Left::Wrong,
    }
}

fn leave_with(storage: &Storage, content: Option<i32>) -> Left
    ensures { leaves content (state_of storage.now) ≡ hop_from 0 (state_of storage.now) result }
{
    match content {
        Some(number) => Left::Leaves(number),
        None => Left::Wrong,
    }
}

/// The numbers that operands are, where none is undefined.
fn known(
    alloc: Global,
    storage: &Storage,
    operands: &[Operand],
) -> Result<Option<Listed<i32>>, NoMemory>
    ensures { IfOk result (λ numbers. known (map (held (state_of storage.now)) operands.now) ≡ numbers) }
{
    let mut numbers = Listed::new(alloc);
    for operand in operands {
        match storage.held(operand) {
            Some(number) => numbers.push(number)?,
            None => return Ok(None),
        }
    }
    Ok(Some(numbers))
}
