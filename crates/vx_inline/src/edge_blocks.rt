// Blocks for the edges from a block with two successors to one with two predecessors.

ghost use Rattle.std.specs.Prelude.{◌≡◌, ◌++◌, ◌∷◌, ◌<◌, ◌^◌, [], IfOk, drop, length, map, take};
ghost use Rattle.vx_flow.specs.Sound.{targets_of};
ghost use Rattle.vx_shape.specs.Origins.{AreOrigins};
ghost use Rattle.vx_inline.specs.Inlined.{behind, critical, edge_block, entries, is_among, relinked, relinked_exit, sides, with_edges};
ghost use Rattle.vx_inline.specs.Linking.{crossing, is_entered_twice, over_block, over_edge, split_sides};

use std::alloc::Global;
use vx_base::listed::{Listed, copied};
use vx_base::outcome::NoMemory;
use vx_base::sizes::{number_of, sum};
use vx_flow::copies::copied_block;
use vx_flow::graph::{Block, BlockId, Edge, Exit};
use vx_shape::origins::origins;

/// The edges from a block with two successors to one with two predecessors or more, ascending.
#[tactic(auto, using(crate::proofs::Linking::critical_next))]
pub(crate) fn critical(alloc: Global, blocks: &[Block]) -> Result<Listed<Edge>, NoMemory>
    requires { length blocks.now < 2 ^ 32 }
    ensures { IfOk result (λ edges. edges ≡ critical blocks.now 0 blocks.now) }
{
    let origins = origins(alloc, blocks)?;
    let mut edges = Listed::new(alloc);
    for (from, block) in blocks.iter().enumerate() {
        let from = number_of(from)?;
        push_critical(&mut edges, blocks, origins.as_slice(), from, &block.exit)?;
    }
    Ok(edges)
}

fn push_critical(
    edges: &mut Listed<Edge>,
    blocks: &[Block],
    origins: &[usize],
    from: BlockId,
    exit: &Exit,
) -> Result<(), NoMemory>
    requires few { length blocks.now < 2 ^ 32 }
    requires origins { AreOrigins blocks.now origins.now }
    ensures { IfOk result (λ _. edges.new ≡ edges.old ++ crossing blocks.now from (sides exit.now)) }
{
    match exit {
        Exit::Split { yes, no, .. } => push_sides(edges, blocks, origins, from, *yes, *no),
        Exit::Goto(_) | Exit::Call { .. } | Exit::Return(_) | Exit::Ends(_) => Ok(()),
    }
}

#[tactic(auto, using(crate::proofs::Linking::crossing_cons, crate::proofs::Linking::sides_none, crate::proofs::Linking::sides_up, crate::proofs::Linking::sides_down))]
fn push_sides(
    edges: &mut Listed<Edge>,
    blocks: &[Block],
    origins: &[usize],
    from: BlockId,
    yes: BlockId,
    no: BlockId,
) -> Result<(), NoMemory>
    requires few { length blocks.now < 2 ^ 32 }
    requires origins { AreOrigins blocks.now origins.now }
    ensures { IfOk result (λ _. edges.new ≡ edges.old ++ crossing blocks.now from (split_sides yes no)) }
{
    if yes == no {
        return Ok(());
    }
    if yes < no {
        push_side(edges, blocks, origins, from, yes)?;
        push_side(edges, blocks, origins, from, no)
    } else {
        push_side(edges, blocks, origins, from, no)?;
        push_side(edges, blocks, origins, from, yes)
    }
}

/// Adds an edge, where many lead to its end.
fn push_side(
    edges: &mut Listed<Edge>,
    blocks: &[Block],
    origins: &[usize],
    from: BlockId,
    to: BlockId,
) -> Result<(), NoMemory>
    requires few { length blocks.now < 2 ^ 32 }
    requires origins { AreOrigins blocks.now origins.now }
    ensures { IfOk result (λ _. edges.new ≡ edges.old ++ crossing blocks.now from (to ∷ [])) }
{
    if is_entered_twice(blocks, origins, to) {
        edges.push(Edge { from, to })?;
    }
    Ok(())
}

/// Whether two blocks or more lead to a block.
#[tactic(auto, using(crate::proofs::Linking::entered_where_many))]
fn is_entered_twice(blocks: &[Block], origins: &[usize], to: BlockId) -> bool
    requires few { length blocks.now < 2 ^ 32 }
    requires origins { AreOrigins blocks.now origins.now }
    ensures { result ≡ is_entered_twice blocks.now to }
{
    match origins.get(to as usize) {
        Some(origin) => *origin == blocks.len(),
        None => entries(blocks, to) > 1,
    }
}

/// How many blocks lead to a block.
fn entries(blocks: &[Block], to: BlockId) -> usize
    ensures is { result ≡ entries blocks.now to }
{
    let mut count = 0;
    for block in blocks {
        if leads_to(&block.exit, to) {
            count += 1;
        }
    }
    count
}

fn leads_to(exit: &Exit, to: BlockId) -> bool
    ensures { result ≡ is_among (targets_of exit.now) to }
{
    match exit {
        Exit::Goto(next) => *next == to,
        Exit::Split { yes, no, .. } => *yes == to || *no == to,
        Exit::Call { next, .. } => *next == to,
        Exit::Return(_) => false,
        Exit::Ends(_) => false,
    }
}

/// The blocks with a block for each of these edges at a place; as they are where there is none.
pub(crate) fn linked(
    alloc: Global,
    place: u32,
    edges: &Listed<Edge>,
    blocks: Listed<Block>,
) -> Result<Listed<Block>, NoMemory>
    ensures { IfOk result (λ new. new ≡ with_edges place edges.now blocks) }
{
    if edges.is_empty() {
        return Ok(blocks);
    }
    with_edges(alloc, place, edges, blocks.as_slice())
}

fn with_edges(
    alloc: Global,
    place: u32,
    edges: &Listed<Edge>,
    blocks: &[Block],
) -> Result<Listed<Block>, NoMemory>
    ensures { IfOk result (λ new. new ≡ with_edges place edges.now blocks.now) }
{
    let mut new = Listed::new(alloc);
    push_relinked(alloc, &mut new, place, edges, front(blocks, place))?;
    push_edge_blocks(alloc, &mut new, place, edges)?;
    push_copies(alloc, &mut new, rest(blocks, place))?;
    Ok(new)
}

fn front(blocks: &[Block], place: u32) -> &[Block]
    ensures { result.now ≡ take place blocks.now }
{
    if (place as usize) < blocks.len() {
        &blocks[..place as usize]
    } else {
        blocks
    }
}

fn rest(blocks: &[Block], place: u32) -> &[Block]
    ensures { result.now ≡ drop place blocks.now }
{
    if (place as usize) < blocks.len() {
        &blocks[place as usize..]
    } else {
        &[]
    }
}

#[tactic(auto, using(crate::proofs::Linking::relinked_next))]
fn push_relinked(
    alloc: Global,
    new: &mut Listed<Block>,
    place: u32,
    edges: &Listed<Edge>,
    blocks: &[Block],
) -> Result<(), NoMemory>
    ensures { IfOk result (λ _. new.new ≡ new.old ++ relinked place edges.now 0 blocks.now) }
{
    for (from, block) in blocks.iter().enumerate() {
        let from = number_of(from)?;
        let exit = relinked_exit(alloc, place, edges, from, &block.exit)?;
        let ops = copied(alloc, block.ops.as_slice())?;
        new.push(Block { ops, exit })?;
    }
    Ok(())
}

/// An exit, where blocks stand behind those of edges; an edge of a split that has a block of its own goes over it.
fn relinked_exit(
    alloc: Global,
    place: u32,
    edges: &Listed<Edge>,
    from: BlockId,
    exit: &Exit,
) -> Result<Exit, NoMemory>
    ensures { IfOk result (λ new. new ≡ relinked_exit place edges.now from exit.now) }
{
    match exit {
        Exit::Goto(next) => Ok(Exit::Goto(behind(place, edges, *next)?)),
        Exit::Split { test, yes, no } => {
            let yes = over(place, edges, from, *yes)?;
            let no = over(place, edges, from, *no)?;
            Ok(Exit::Split {
                test: *test,
                yes,
                no,
            })
        }
        Exit::Call {
            function,
            arguments,
            result,
            next,
        } => {
            let next = behind(place, edges, *next)?;
            let arguments = copied(alloc, arguments.as_slice())?;
            Ok(Exit::Call {
                function: *function,
                arguments,
                result: *result,
                next,
            })
        }
        Exit::Return(operand) => Ok(Exit::Return(*operand)),
        Exit::Ends(trap) => Ok(Exit::Ends(*trap)),
    }
}

/// Where a block stands behind those of the edges.
fn behind(place: u32, edges: &Listed<Edge>, block: BlockId) -> Result<BlockId, NoMemory>
    ensures { IfOk result (λ new. new ≡ behind place (length edges.now) block) }
{
    if block < place {
        Ok(block)
    } else {
        sum(block, edges.len() as u32)
    }
}

/// The block of an edge, if it has one of its own, else where it leads. There are few of these edges.
fn over(place: u32, edges: &Listed<Edge>, from: BlockId, to: BlockId) -> Result<BlockId, NoMemory>
    ensures { IfOk result (λ new. new ≡ over_block place edges.now from to) }
{
    let other = behind(place, edges, to)?;
    edge_block(from, to, place, edges.as_slice(), other)
}

fn edge_block(
    from: BlockId,
    to: BlockId,
    place: u32,
    edges: &[Edge],
    other: BlockId,
) -> Result<BlockId, NoMemory>
    ensures { IfOk result (λ new. new ≡ edge_block from to place edges.now other) }
{
    let mut at = place;
    for edge in edges {
        if edge.from == from && edge.to == to {
            return Ok(at);
        }
        at = sum(at, 1)?;
    }
    Ok(other)
}

fn push_edge_blocks(
    alloc: Global,
    new: &mut Listed<Block>,
    place: u32,
    edges: &Listed<Edge>,
) -> Result<(), NoMemory>
    ensures { IfOk result (λ _. new.new ≡ new.old ++ map (over_edge place (length edges.now)) edges.now) }
{
    for edge in edges.as_slice() {
        let next = behind(place, edges, edge.to)?;
        new.push(Block {
            ops: Listed::new(alloc),
            exit: Exit::Goto(next),
        })?;
    }
    Ok(())
}

fn push_copies(alloc: Global, new: &mut Listed<Block>, blocks: &[Block]) -> Result<(), NoMemory>
    ensures { IfOk result (λ _. new.new ≡ new.old ++ blocks.now) }
{
    for block in blocks {
        new.push(copied_block(alloc, block)?)?;
    }
    Ok(())
}
