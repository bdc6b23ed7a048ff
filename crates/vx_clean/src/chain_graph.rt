// A graph whose blocks are chains of blocks of another.

ghost use Rattle.std.specs.Prelude.{◌≡◌, ◌==◌, ◌++◌, IfOk, map, slice_get};
ghost use Rattle.vx_clean.specs.Laying.{exit_at, joined, laid, last_exit, moved, one_way, ops_at, ops_of};
ghost use Rattle.vx_clean.specs.LinkTest.{moves};

use crate::link_test::target;
use std::alloc::Global;
use vx_base::listed::Listed;
use vx_base::outcome::NoMemory;
use vx_flow::copies::{copied_exit, with_blocks};
use vx_flow::graph::{Block, BlockId, Exit, Graph, Op, Value};

/// The graph whose blocks are the chains, with each target moved.
pub fn laid(
    alloc: Global,
    graph: &Graph,
    to: &[BlockId],
    chains: &[Listed<BlockId>],
) -> Result<Graph, NoMemory>
    ensures { IfOk result (λ new. new ≡ laid (moves to.now) chains.now graph.now) }
{
    let blocks = joined_all(alloc, graph.blocks.as_slice(), to, chains)?;
    with_blocks(alloc, graph, blocks)
}

fn joined_all(
    alloc: Global,
    blocks: &[Block],
    to: &[BlockId],
    chains: &[Listed<BlockId>],
) -> Result<Listed<Block>, NoMemory>
    ensures { IfOk result (λ new. new ≡ map (joined (moves to.now) blocks.now) chains.now) }
{
    let mut made = Listed::new(alloc);
    for chain in chains {
        made.push(joined(alloc, blocks, to, chain.as_slice())?)?;
    }
    Ok(made)
}

/// The blocks of a chain as one.
fn joined(
    alloc: Global,
    blocks: &[Block],
    to: &[BlockId],
    chain: &[BlockId],
) -> Result<Block, NoMemory>
    ensures { IfOk result (λ block. block ≡ joined (moves to.now) blocks.now chain.now) }
{
    let ops = joined_ops(alloc, blocks, chain)?;
    let exit = last_exit(alloc, blocks, to, chain)?;
    Ok(Block { ops, exit })
}

fn joined_ops(alloc: Global, blocks: &[Block], chain: &[BlockId]) -> Result<Listed<Op>, NoMemory>
    ensures { IfOk result (λ ops. ops ≡ ops_of blocks.now chain.now) }
{
    let mut ops = Listed::new(alloc);
    for block in chain {
        append(&mut ops, ops_at(blocks, *block))?;
    }
    Ok(ops)
}

fn ops_at(blocks: &[Block], block: BlockId) -> &[Op]
    ensures { result.now ≡ ops_at (slice_get blocks.now block) }
{
    match blocks.get(block as usize) {
        Some(block) => block.ops.as_slice(),
        None => &[],
    }
}

fn append(ops: &mut Listed<Op>, more: &[Op]) -> Result<(), NoMemory>
    ensures { IfOk result (λ _. ops.new ≡ ops.old ++ more.now) }
{
    for op in more {
        ops.push(*op)?;
    }
    Ok(())
}

fn last_exit(
    alloc: Global,
    blocks: &[Block],
    to: &[BlockId],
    chain: &[BlockId],
) -> Result<Exit, NoMemory>
    ensures { IfOk result (λ exit. exit ≡ last_exit (moves to.now) blocks.now chain.now) }
{
    match chain {
        [] => Ok(Exit::Goto(0)),
        [.., last] => exit_at(alloc, blocks, to, *last),
    }
}

fn exit_at(
    alloc: Global,
    blocks: &[Block],
    to: &[BlockId],
    block: BlockId,
) -> Result<Exit, NoMemory>
    ensures { IfOk result (λ exit. exit ≡ exit_at (moves to.now) (slice_get blocks.now block)) }
{
    match blocks.get(block as usize) {
        Some(block) => moved(alloc, to, &block.exit),
        None => Ok(Exit::Goto(0)),
    }
}

/// A copy of an exit with each target moved. A test whose two sides come to one block is gone.
fn moved(alloc: Global, to: &[BlockId], exit: &Exit) -> Result<Exit, NoMemory>
    ensures { IfOk result (λ new. new ≡ moved (moves to.now) exit.now) }
{
    let copy = copied_exit(alloc, exit)?;
    Ok(moved_to(to, copy))
}

fn moved_to(to: &[BlockId], exit: Exit) -> Exit
    ensures { result ≡ moved (moves to.now) exit }
{
    match exit {
        Exit::Goto(next) => Exit::Goto(target(to, next)),
        Exit::Split { test, yes, no } => one_way(test, target(to, yes), target(to, no)),
        Exit::Call {
            function,
            arguments,
            result,
            next,
        } => Exit::Call {
            function,
            arguments,
            result,
            next: target(to, next),
        },
        Exit::Return(operand) => Exit::Return(operand),
        Exit::Ends(trap) => Exit::Ends(trap),
    }
}

fn one_way(test: Value, yes: BlockId, no: BlockId) -> Exit
    ensures { result ≡ one_way (yes == no) test yes no }
{
    if yes == no {
        Exit::Goto(yes)
    } else {
        Exit::Split { test, yes, no }
    }
}
