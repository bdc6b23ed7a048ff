// What stands behind the blocks of the caller, before there are blocks for edges: copies of the blocks of the callee, and trap blocks.

ghost use Rattle.std.specs.Prelude.{◌≡◌, ◌++◌, ◌∷◌, [], IfOk, map, slice_get};
ghost use Rattle.std.specs.List.{filter};
ghost use Rattle.vx_flow.specs.Operands.{with_values};
ghost use Rattle.vx_inline.specs.Inlined.{is_plain, move, moved, moves_in, moves_out};
ghost use Rattle.vx_inline.specs.Placing.{place_in};
ghost use Rattle.vx_inline.specs.Splicing.{added_by, back_exit, back_moves, copied_by, move_at, trap_block};
ghost use Rattle.vx_inline.specs.Taking.{value_at};

use crate::found_call::FoundCall;
use crate::places::{Places, is_plain, place_of};
use crate::takes::{renamed, renamed_operand, value_at};
use std::alloc::Global;
use vx_base::arithmetic::Code;
use vx_base::listed::Listed;
use vx_base::outcome::{NoMemory, Trap};
use vx_flow::copies::copied_exit;
use vx_flow::graph::{Block, BlockId, Exit, Op, Operand, Value};

/// What blocks are copied by: the call, where blocks of the caller and of the callee stand, the kinds of trap blocks, and what each
/// value of the callee takes.
#[derive(Clone, Copy)]
pub struct Splice<'a> {
    pub call: &'a FoundCall<'a>,
    pub at: &'a Places,
    pub copy: &'a Places,
    pub kinds: &'a [Trap],
    pub to: &'a [Value],
}

/// The copies of the blocks of the callee, and a trap block for each kind.
pub(crate) fn added(alloc: Global, splice: &Splice) -> Result<Listed<Block>, NoMemory>
    ensures { IfOk result (λ blocks. blocks ≡ added_by splice.now) }
{
    let mut blocks = Listed::new(alloc);
    push_copied(alloc, &mut blocks, splice)?;
    push_traps(alloc, &mut blocks, splice.kinds)?;
    Ok(blocks)
}

/// Adds a block that is no trap block.
pub(crate) fn push_plain(blocks: &mut Listed<Block>, block: Block) -> Result<(), NoMemory>
    ensures { IfOk result (λ _. blocks.new ≡ blocks.old ++ filter is_plain (block ∷ [])) }
{
    if is_plain(&block) {
        blocks.push(block)?;
    }
    Ok(())
}

/// An exit with each target moved.
pub(crate) fn moved(at: &Places, exit: Exit) -> Exit
    ensures { result ≡ moved (place_in at.now) exit }
{
    match exit {
        Exit::Goto(next) => Exit::Goto(place_of(at, next)),
        Exit::Split { test, yes, no } => Exit::Split {
            test,
            yes: place_of(at, yes),
            no: place_of(at, no),
        },
        Exit::Call {
            function,
            arguments,
            result,
            next,
        } => Exit::Call {
            function,
            arguments,
            result,
            next: place_of(at, next),
        },
        Exit::Return(operand) => Exit::Return(operand),
        Exit::Ends(trap) => Exit::Ends(trap),
    }
}

/// A move of each argument to what its parameter takes.
pub(crate) fn moves_of(
    alloc: Global,
    call: &FoundCall,
    to: &[Value],
) -> Result<Listed<Op>, NoMemory>
    ensures { IfOk result (λ ops. ops ≡ moves_in (value_at to.now) call.now.callee.now.parameters call.now.arguments.now) }
{
    let mut ops = Listed::new(alloc);
    let parameters = call.callee.parameters.as_slice();
    push_moves(&mut ops, to, parameters, call.arguments.as_slice())?;
    Ok(ops)
}

/// Adds a move of each argument to what its parameter takes.
fn push_moves(
    ops: &mut Listed<Op>,
    to: &[Value],
    parameters: &[Value],
    arguments: &[Operand],
) -> Result<(), NoMemory>
    ensures { IfOk result (λ _. ops.new ≡ ops.old ++ moves_in (value_at to.now) parameters.now arguments.now) }
{
    for (place, parameter) in parameters.iter().enumerate() {
        push_move_at(ops, value_at(to, *parameter), arguments, place)?;
    }
    Ok(())
}

fn push_move_at(
    ops: &mut Listed<Op>,
    to: Value,
    arguments: &[Operand],
    place: usize,
) -> Result<(), NoMemory>
    ensures { IfOk result (λ _. ops.new ≡ ops.old ++ move_at to (slice_get arguments.now place)) }
{
    match arguments.get(place) {
        Some(argument) => Ok(ops.push(move_of(to, *argument))?),
        None => Ok(()),
    }
}

fn move_of(to: Value, from: Operand) -> Op
    ensures { result ≡ move to from }
{
    Op::Compute {
        code: Code::Mov,
        to,
        left: from,
        right: Operand::Number(0),
    }
}

#[tactic(auto, using(crate::proofs::Splicing::copied_next))]
fn push_copied(alloc: Global, blocks: &mut Listed<Block>, splice: &Splice) -> Result<(), NoMemory>
    ensures { IfOk result (λ _. blocks.new ≡ blocks.old ++ filter is_plain (map (copied_by splice.now) splice.now.call.now.callee.now.blocks)) }
{
    for block in splice.call.callee.blocks.as_slice() {
        push_plain(blocks, copied_block(alloc, splice, block)?)?;
    }
    Ok(())
}

/// A copy of a block of the callee; one that returns moves the result and goes on behind the call.
#[tactic(auto, using(crate::proofs::Splicing::copied_in_parts))]
fn copied_block(alloc: Global, splice: &Splice, block: &Block) -> Result<Block, NoMemory>
    ensures { IfOk result (λ new. new ≡ copied_by splice.now block.now) }
{
    let exit = copied_exit(alloc, &block.exit)?;
    let mut ops = renamed_all(alloc, splice.to, block.ops.as_slice())?;
    push_back(&mut ops, splice.to, splice.call.result, &block.exit)?;
    Ok(Block {
        ops,
        exit: back_exit(splice, exit),
    })
}

fn renamed_all(alloc: Global, to: &[Value], ops: &[Op]) -> Result<Listed<Op>, NoMemory>
    ensures { IfOk result (λ new. new ≡ map (with_values (value_at to.now)) ops.now) }
{
    let mut new = Listed::new(alloc);
    for op in ops {
        new.push(renamed(to, op))?;
    }
    Ok(new)
}

/// Adds the move of a result to what takes it.
fn push_back(
    ops: &mut Listed<Op>,
    to: &[Value],
    taker: Option<Value>,
    exit: &Exit,
) -> Result<(), NoMemory>
    ensures { IfOk result (λ _. ops.new ≡ ops.old ++ back_moves (value_at to.now) taker exit.now) }
{
    match exit {
        Exit::Return(operand) => push_taken(ops, taker, renamed_operand(to, operand)),
        Exit::Goto(_) | Exit::Split { .. } | Exit::Call { .. } | Exit::Ends(_) => Ok(()),
    }
}

fn push_taken(ops: &mut Listed<Op>, taker: Option<Value>, from: Operand) -> Result<(), NoMemory>
    ensures { IfOk result (λ _. ops.new ≡ ops.old ++ moves_out taker from) }
{
    match taker {
        Some(taker) => Ok(ops.push(move_of(taker, from))?),
        None => Ok(()),
    }
}

/// The exit of a copy.
fn back_exit(splice: &Splice, exit: Exit) -> Exit
    ensures { result ≡ back_exit (place_in splice.now.copy.now) (value_at splice.now.to.now) (place_in splice.now.at.now splice.now.call.now.next) exit }
{
    match exit {
        Exit::Goto(next) => Exit::Goto(place_of(splice.copy, next)),
        Exit::Split { test, yes, no } => Exit::Split {
            test: value_at(splice.to, test),
            yes: place_of(splice.copy, yes),
            no: place_of(splice.copy, no),
        },
        Exit::Call {
            function,
            arguments,
            result,
            next,
        } => Exit::Call {
            function,
            arguments,
            result,
            next: place_of(splice.copy, next),
        },
        Exit::Return(_) => Exit::Goto(place_of(splice.at, splice.call.next)),
        Exit::Ends(trap) => Exit::Ends(trap),
    }
}

fn push_traps(alloc: Global, blocks: &mut Listed<Block>, kinds: &[Trap]) -> Result<(), NoMemory>
    ensures { IfOk result (λ _. blocks.new ≡ blocks.old ++ map trap_block kinds.now) }
{
    for kind in kinds {
        blocks.push(Block {
            ops: Listed::new(alloc),
            exit: Exit::Ends(*kind),
        })?;
    }
    Ok(())
}
