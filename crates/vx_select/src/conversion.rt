// A graph with one diamond converted.

ghost use Rattle.std.specs.Prelude.{◌≡◌, ◌≤◌, ◌++◌, if◌then◌else◌, ◌==◌, IfOk, slice_get};
ghost use Rattle.vx_flow.specs.declared.graph.Graph.{Graph};
ghost use Rattle.vx_select.specs.Known.{whole};
ghost use Rattle.vx_select.specs.Joining.{before_one, blocks_by, changed_by, converted_by, gone, joined_by, one_by};
ghost use Rattle.vx_select.specs.Selected.{led, numbered};

use crate::both_sides::joined_ops;
use crate::corners::{Corners, stays};
use crate::values::Values;
use std::alloc::Global;
use vx_base::listed::{Listed, copied};
use vx_base::outcome::NoMemory;
use vx_flow::copies::{copied_exit, with_blocks};
use vx_flow::graph::{Block, BlockId, Exit, Graph};

/// The graph in which the block that splits has both sides and goes on to where they meet, and the sides are gone.
pub(crate) fn converted(
    alloc: Global,
    graph: &Graph,
    corners: &Corners,
    values: &Values,
) -> Result<Graph, NoMemory>
    ensures { IfOk result (λ new. new ≡ converted_by graph.now corners.now values.now) }
{
    let blocks = converted_blocks(alloc, graph, corners, values)?;
    with_blocks(alloc, graph, blocks)
}

fn converted_blocks(
    alloc: Global,
    graph: &Graph,
    corners: &Corners,
    values: &Values,
) -> Result<Listed<Block>, NoMemory>
    ensures { IfOk result (λ blocks. blocks ≡ blocks_by graph.now corners.now values.now 0 graph.now.blocks) }
{
    let mut blocks = Listed::new(alloc);
    for place in 0..graph.blocks.len() as u32 {
        push_changed(alloc, &mut blocks, graph, corners, values, place)?;
    }
    Ok(blocks)
}

/// Adds what becomes of a block, if it is no side.
fn push_changed(
    alloc: Global,
    blocks: &mut Listed<Block>,
    graph: &Graph,
    corners: &Corners,
    values: &Values,
    place: BlockId,
) -> Result<(), NoMemory>
    ensures { IfOk result (λ _. blocks.new ≡ blocks.old ++ one_by graph.now corners.now values.now place (slice_get graph.now.blocks place)) }
{
    match graph.blocks.as_slice().get(place as usize) {
        Some(block) => {
            if stays(corners, place) {
                let new = changed(alloc, graph, corners, values, place, block)?;
                blocks.push(new)?;
            }
            Ok(())
        }
        None => Ok(()),
    }
}

/// What becomes of a block that is no side.
fn changed(
    alloc: Global,
    graph: &Graph,
    corners: &Corners,
    values: &Values,
    place: BlockId,
    block: &Block,
) -> Result<Block, NoMemory>
    ensures { IfOk result (λ new. new ≡ changed_by graph.now corners.now values.now place block.now) }
{
    if place == corners.block {
        let ops = joined_ops(alloc, graph, corners, values)?;
        let exit = Exit::Goto(numbered(corners, corners.join));
        Ok(Block { ops, exit })
    } else {
        renumbered(alloc, corners, block)
    }
}

/// The block with the new numbers of the blocks to which it leads.
fn renumbered(alloc: Global, corners: &Corners, block: &Block) -> Result<Block, NoMemory>
    ensures { IfOk result (λ new. (g : Graph) → new ≡ record { ops = block.now.ops; exit = led (numbered (whole g corners.now)) block.now.exit }) }
{
    let ops = copied(alloc, block.ops.as_slice())?;
    let exit = copied_exit(alloc, &block.exit)?;
    Ok(Block {
        ops,
        exit: led(corners, exit),
    })
}

fn led(corners: &Corners, exit: Exit) -> Exit
    ensures { (g : Graph) → result ≡ led (numbered (whole g corners.now)) exit }
{
    match exit {
        Exit::Goto(next) => Exit::Goto(numbered(corners, next)),
        Exit::Split { test, yes, no } => Exit::Split {
            test,
            yes: numbered(corners, yes),
            no: numbered(corners, no),
        },
        Exit::Call {
            function,
            arguments,
            result,
            next,
        } => Exit::Call {
            function,
            arguments,
            result,
            next: numbered(corners, next),
        },
        Exit::Return(operand) => Exit::Return(operand),
        Exit::Ends(trap) => Exit::Ends(trap),
    }
}

/// The number that a block has where the sides are gone.
fn numbered(corners: &Corners, block: BlockId) -> BlockId
    ensures { (g : Graph) → result ≡ numbered (whole g corners.now) block }
{
    block - gone(corners, block)
}

/// How many sides stand before a block.
#[tactic(auto, using(crate::proofs::Gone::gone_below))]
fn gone(corners: &Corners, block: BlockId) -> u32
    ensures exact { result ≡ gone corners.now block }
    ensures below { result ≤ block }
{
    let yes = before_one(corners.yes, block);
    let no = if corners.no == corners.yes {
        0
    } else {
        before_one(corners.no, block)
    };
    yes + no
}

fn before_one(side: BlockId, block: BlockId) -> u32
    ensures exact { result ≡ before_one side block }
    ensures few { result ≤ 1 }
{
    if side < block { 1 } else { 0 }
}
