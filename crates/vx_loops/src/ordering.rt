// The blocks of a graph in an order in which each stands behind those that lead to it, but for the edges that close loops: the
// reverse of the order in which a walk from the entry leaves them. Where a block stands owes nothing; that each stands there once
// does, and is tested as the order is made.

ghost use Rattle.std.specs.Prelude.{◌≡◌, ◌<◌, ◌^◌, ℕ, true, IfOk, length, min};
ghost use Rattle.vx_flow.specs.Rows.{is_marked};
ghost use Rattle.vx_loops.specs.Order.{HasEachOnce, MarksStay, Placed};

use std::alloc::Global;
use vx_base::outcome::NoMemory;
use vx_flow::graph::{Block, BlockId, Exit};

/// A block on the path of the walk, and how many of its edges are followed.
#[derive(Clone, Copy)]
struct Stop {
    block: BlockId,
    followed: u32,
}

/// The blocks in their order, each once; those that no path from the entry reaches come last. Of more than 2^32 blocks these are
/// the first. The time is linear in the blocks.
pub fn order_of(alloc: Global, blocks: &[Block]) -> Result<Vec<BlockId>, NoMemory>
    ensures { IfOk result (λ order. HasEachOnce (min (length blocks.now) (2 ^ 32)) order.items) }
{
    let left = walked(alloc, blocks)?;
    ordered(alloc, left.as_slice(), blocks.len())
}

/// The blocks in the order in which the walk leaves them. It stops at each block once more than the block has edges.
fn walked(alloc: Global, blocks: &[Block]) -> Result<Vec<BlockId>, NoMemory> {
    let mut seen = vec![in alloc; false; blocks.len()]?;
    let mut left = Vec::new(alloc);
    let mut path = Vec::new(alloc);
    enter(&mut seen, &mut path, 0)?;
    for _ in 0..blocks.len().saturating_mul(3) {
        match path.pop() {
            Some(stop) => go_on(blocks, &mut seen, &mut path, &mut left, stop)?,
            None => break,
        }
    }
    Ok(left)
}

fn enter(seen: &mut Vec<bool>, path: &mut Vec<Stop>, block: BlockId) -> Result<(), NoMemory> {
    let place = block as usize;
    if place < seen.len() && !seen[place] {
        seen[place] = true;
        path.push(Stop { block, followed: 0 })?;
    }
    Ok(())
}

fn go_on(
    blocks: &[Block],
    seen: &mut Vec<bool>,
    path: &mut Vec<Stop>,
    left: &mut Vec<BlockId>,
    stop: Stop,
) -> Result<(), NoMemory> {
    match edge_of(blocks, stop) {
        Some(next) => {
            path.push(Stop {
                block: stop.block,
                followed: stop.followed.saturating_add(1),
            })?;
            enter(seen, path, next)
        }
        None => {
            left.push(stop.block)?;
            Ok(())
        }
    }
}

/// The edge that is followed next.
fn edge_of(blocks: &[Block], stop: Stop) -> Option<BlockId> {
    match blocks.get(stop.block as usize) {
        Some(block) => match &block.exit {
            Exit::Goto(next) => first_edge(*next, stop.followed),
            Exit::Split { yes, no, .. } => {
                if stop.followed == 1 {
                    Some(*yes)
                } else {
                    first_edge(*no, stop.followed)
                }
            }
            Exit::Call { next, .. } => first_edge(*next, stop.followed),
            _ => None,
        },
        None => None,
    }
}

fn first_edge(next: BlockId, followed: u32) -> Option<BlockId> {
    if followed == 0 { Some(next) } else { None }
}

/// So many blocks: the reverse of those that were left, and the others behind them.
fn ordered(alloc: Global, left: &[BlockId], count: usize) -> Result<Vec<BlockId>, NoMemory>
    ensures { IfOk result (λ order. HasEachOnce (min count (2 ^ 32)) order.items) }
{
    let mut placed = vec![in alloc; false; count]?;
    let mut order = Vec::new(alloc);
    append_reversed(&mut order, &mut placed, left)?;
    append_others(&mut order, &mut placed)?;
    Ok(order)
}

fn append_reversed(
    order: &mut Vec<BlockId>,
    placed: &mut Vec<bool>,
    left: &[BlockId],
) -> Result<(), NoMemory>
    requires { Placed placed.old.items order.old.items }
    ensures placed { IfOk result (λ _. Placed placed.new.items order.new.items) }
    ensures count { IfOk result (λ _. length placed.new.items ≡ length placed.old.items) }
{
    for behind in 0..left.len() {
        place_once(order, placed, left[left.len() - 1 - behind])?;
    }
    Ok(())
}

fn append_others(order: &mut Vec<BlockId>, placed: &mut Vec<bool>) -> Result<(), NoMemory>
    requires { Placed placed.old.items order.old.items }
    ensures placed { IfOk result (λ _. Placed placed.new.items order.new.items) }
    ensures count { IfOk result (λ _. length placed.new.items ≡ length placed.old.items) }
    ensures all { IfOk result (λ _. (b : ℕ) → b < length placed.old.items → b < 2 ^ 32 → is_marked placed.new.items b ≡ true) }
{
    for place in 0..placed.len() {
        if place <= u32::MAX as usize {
            place_once(order, placed, place as u32)?;
        }
    }
    Ok(())
}

/// Puts a block behind the others, where it is there and not among them yet.
fn place_once(
    order: &mut Vec<BlockId>,
    placed: &mut Vec<bool>,
    block: BlockId,
) -> Result<(), NoMemory>
    requires { Placed placed.old.items order.old.items }
    ensures placed { IfOk result (λ _. Placed placed.new.items order.new.items) }
    ensures count { IfOk result (λ _. length placed.new.items ≡ length placed.old.items) }
    ensures stays { IfOk result (λ _. MarksStay placed.old.items placed.new.items) }
    ensures marked { IfOk result (λ _. block < length placed.old.items → is_marked placed.new.items block ≡ true) }
{
    let place = block as usize;
    if place < placed.len() && !placed[place] {
        placed[place] = true;
        order.push(block)?;
    }
    Ok(())
}
