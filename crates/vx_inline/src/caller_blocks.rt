// The blocks of a caller with the callee in place of the call. They stay in their places of memory.

ghost use Rattle.std.specs.Prelude.{◌≡◌, ◌++◌, true, IfOk};
ghost use Rattle.std.specs.List.{filter};
ghost use Rattle.vx_flow.specs.declared.graph.Exit.TheVariants.{Goto};
ghost use Rattle.vx_inline.specs.Inlined.{is_plain, moved, stayed};
ghost use Rattle.vx_inline.specs.Inlining.{linked_by};
ghost use Rattle.vx_inline.specs.Placing.{place_in};
ghost use Rattle.vx_inline.specs.Splicing.{placed_block, placed_from, with_joint};

use crate::edge_blocks::{critical, linked};
use crate::joint::Joint;
use crate::places::{Places, is_plain, place_of};
use crate::splice::moved;
use std::alloc::Global;
use std::mem::replace;
use vx_base::listed::Listed;
use vx_base::outcome::NoMemory;
use vx_base::sizes::sum;
use vx_flow::graph::{Block, BlockId, Exit, Op};

/// The blocks of a caller with all that comes into it.
pub(crate) fn with_joint(
    alloc: Global,
    blocks: Listed<Block>,
    joint: Joint,
    site: BlockId,
) -> Result<Listed<Block>, NoMemory>
    ensures { IfOk result (λ new. new ≡ with_joint joint site blocks) }
{
    let mut new = placed(blocks, &joint, site)?;
    let Joint {
        at,
        moves,
        first: _,
        more,
        all,
    } = joint;
    drop(at);
    drop(moves);
    push_all(&mut new, more)?;
    linked_all(alloc, all, new)
}

/// With blocks for edges.
fn linked_all(alloc: Global, all: u32, blocks: Listed<Block>) -> Result<Listed<Block>, NoMemory>
    ensures { IfOk result (λ new. new ≡ linked_by all blocks) }
{
    let _count = blocks.len();
    let edges = critical(alloc, blocks.as_slice())?;
    linked(alloc, all, &edges, blocks)
}

fn push_all(blocks: &mut Listed<Block>, more: Listed<Block>) -> Result<(), NoMemory>
    ensures { IfOk result (λ _. blocks.new ≡ blocks.old ++ more) }
{
    for block in more.into_vec() {
        blocks.push(block)?;
    }
    Ok(())
}

/// The blocks of the caller that are no trap blocks, where they stand.
fn placed(blocks: Listed<Block>, joint: &Joint, site: BlockId) -> Result<Listed<Block>, NoMemory>
    ensures { IfOk result (λ new. new ≡ filter is_plain (placed_from joint.now site 0 blocks)) }
{
    let mut own = blocks.into_vec();
    place_all(&mut own, joint, site)?;
    keep_plain(&mut own);
    Ok(Listed::from_vec(own)?)
}

/// The same blocks without trap blocks.
fn keep_plain(blocks: &mut Vec<Block>)
    ensures { blocks.new.items ≡ filter is_plain blocks.old.items }
{
    blocks.retain(|block| is_plain(block));
}

/// Leads the blocks of the caller on to where others stand now; all of them stay where they are.
#[tactic(auto, using(crate::proofs::Joints::placed_next, crate::proofs::Joints::placed_last))]
fn place_all(blocks: &mut Vec<Block>, joint: &Joint, site: BlockId) -> Result<(), NoMemory>
    ensures { IfOk result (λ _. blocks.new.items ≡ placed_from joint.now site 0 blocks.old.items) }
{
    let mut place = 0;
    for block in blocks.iter_mut() {
        place_block(block, joint, site, place)?;
        place = sum(place, 1)?;
    }
    Ok(())
}

fn place_block(block: &mut Block, joint: &Joint, site: BlockId, place: u32) -> Result<(), NoMemory>
    ensures { IfOk result (λ _. block.new ≡ placed_block joint.now site place block.old) }
{
    if place == site {
        enter(block, joint)
    } else {
        stay(block, &joint.at);
        Ok(())
    }
}

/// A block of the caller. Most of them lead to blocks that stay where they are.
fn stay(block: &mut Block, at: &Places)
    ensures { block.new ≡ stayed (place_in at.now) block.old }
{
    if !is_kept(at, &block.exit) {
        let exit = replace(&mut block.exit, Exit::Goto(0));
        block.exit = moved(at, exit);
    }
}

/// Whether all blocks to which an exit leads stay where they are.
fn is_kept(at: &Places, exit: &Exit) -> bool
    ensures { result ≡ true → moved (place_in at.now) exit.now ≡ exit.now }
{
    match exit {
        Exit::Goto(next) => place_of(at, *next) == *next,
        Exit::Split { yes, no, .. } => place_of(at, *yes) == *yes && place_of(at, *no) == *no,
        Exit::Call { next, .. } => place_of(at, *next) == *next,
        Exit::Return(_) => true,
        Exit::Ends(_) => true,
    }
}

/// The block that called: a move for each argument, and on to the copy of the callee's entry.
fn enter(block: &mut Block, joint: &Joint) -> Result<(), NoMemory>
    ensures { IfOk result (λ _. block.new ≡ record { ops = block.old.ops ++ joint.now.moves; exit = Goto joint.now.first }) }
{
    push_ops(&mut block.ops, joint.moves.as_slice())?;
    block.exit = Exit::Goto(joint.first);
    Ok(())
}

fn push_ops(ops: &mut Listed<Op>, more: &[Op]) -> Result<(), NoMemory>
    ensures { IfOk result (λ _. ops.new ≡ ops.old ++ more.now) }
{
    for op in more {
        ops.push(*op)?;
    }
    Ok(())
}
