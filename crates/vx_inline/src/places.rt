// Where the blocks of a graph stand behind others: first those that are no trap blocks, in their order, then one trap block for
// each kind.

ghost use Rattle.std.specs.Prelude.{◌≡◌, ◌++◌, ℕ, IfOk, length};
ghost use Rattle.std.specs.List.{filter};
ghost use Rattle.vx_shape.specs.ShapeTest.{is_trap_of};
ghost use Rattle.vx_inline.specs.Inlined.{is_plain, kind_place, kinds_of, placed};
ghost use Rattle.vx_inline.specs.Placing.{has_kind, next_at, place_at, place_in};

use std::alloc::Global;
use vx_base::listed::Listed;
use vx_base::outcome::{NoMemory, Trap};
use vx_base::sizes::sum;
use vx_flow::graph::{Block, BlockId, Exit};
use vx_shape::shape_test::{has_no_ops, is_trap};

/// The place of each block, and that of a block which is not there.
#[derive(Drop)]
pub struct Places {
    pub blocks: Vec<BlockId>,
    pub beyond: BlockId,
}

/// The kinds of trap blocks, in their order.
const KINDS: [Trap; 4] = [Trap::Divide, Trap::Index, Trap::Input, Trap::Depth];

/// The place of a block.
pub(crate) fn place_of(places: &Places, block: BlockId) -> BlockId
    ensures { result ≡ place_in places.now block }
{
    match places.blocks.get(block as usize) {
        Some(place) => *place,
        None => places.beyond,
    }
}

/// Where blocks stand: from a first place on those that are no trap blocks, from another on one trap block for each kind.
#[tactic(auto, using(crate::proofs::Placing::placed_where_told, crate::proofs::Placing::told_next, crate::proofs::Placing::behind_next))]
pub(crate) fn places_of(
    alloc: Global,
    first: u32,
    traps: u32,
    kinds: &[Trap],
    blocks: &[Block],
) -> Result<Places, NoMemory>
    ensures { IfOk result (λ places. (b : ℕ) → place_in places b ≡ placed first traps kinds.now blocks.now b) }
{
    let mut places = Vec::new(alloc);
    let mut next = first;
    for block in blocks {
        places.push(place_at(next, traps, kinds, block)?)?;
        next = next_at(next, block)?;
    }
    Ok(Places {
        blocks: places,
        beyond: next,
    })
}

fn place_at(next: u32, traps: u32, kinds: &[Trap], block: &Block) -> Result<u32, NoMemory>
    ensures { IfOk result (λ place. place ≡ place_at next traps kinds.now block.now) }
{
    if is_plain(block) {
        Ok(next)
    } else {
        sum(traps, kind_place(kinds, &block.exit)?)
    }
}

fn next_at(next: u32, block: &Block) -> Result<u32, NoMemory>
    ensures { IfOk result (λ place. place ≡ next_at next block.now) }
{
    if is_plain(block) {
        sum(next, 1)
    } else {
        Ok(next)
    }
}

/// Whether a block is no trap block.
pub(crate) fn is_plain(block: &Block) -> bool
    ensures { result ≡ is_plain block.now }
{
    !(is_trap(&block.exit) && has_no_ops(block))
}

/// How many blocks are no trap blocks.
#[tactic(auto, using(crate::proofs::Placing::counted_in, crate::proofs::Placing::counted_out))]
pub(crate) fn plain_count(blocks: &[Block]) -> Result<u32, NoMemory>
    ensures { IfOk result (λ count. count ≡ length (filter is_plain blocks.now)) }
{
    let mut count = 0;
    for block in blocks {
        if is_plain(block) {
            count = sum(count, 1)?;
        }
    }
    Ok(count)
}

/// The place of the trap by which an exit ends among kinds; how many there are where it ends by none.
fn kind_place(kinds: &[Trap], exit: &Exit) -> Result<u32, NoMemory>
    ensures { IfOk result (λ place. place ≡ kind_place kinds.now exit.now) }
{
    let mut place = 0;
    for kind in kinds {
        if ends_by(*kind, exit) {
            return Ok(place);
        }
        place = sum(place, 1)?;
    }
    Ok(place)
}

/// The kinds of trap blocks of two graphs, in their order.
pub(crate) fn kinds(
    alloc: Global,
    caller: &[Block],
    callee: &[Block],
) -> Result<Listed<Trap>, NoMemory>
    ensures { IfOk result (λ kinds. kinds ≡ kinds_of (caller.now ++ callee.now)) }
{
    those_of(alloc, &KINDS, caller, callee)
}

fn those_of(
    alloc: Global,
    all: &[Trap],
    caller: &[Block],
    callee: &[Block],
) -> Result<Listed<Trap>, NoMemory>
    ensures { IfOk result (λ kinds. kinds ≡ filter (has_kind (caller.now ++ callee.now)) all.now) }
{
    let mut kinds = Listed::new(alloc);
    for kind in all {
        if has_kind(caller, *kind) || has_kind(callee, *kind) {
            kinds.push(*kind)?;
        }
    }
    Ok(kinds)
}

/// Whether some block is a trap block of a kind.
fn has_kind(blocks: &[Block], kind: Trap) -> bool
    ensures { result ≡ has_kind blocks.now kind }
{
    for block in blocks {
        if ends_by(kind, &block.exit) && has_no_ops(block) {
            return true;
        }
    }
    false
}

/// Whether an exit ends by a trap.
fn ends_by(kind: Trap, exit: &Exit) -> bool
    ensures { result ≡ is_trap_of kind exit.now }
{
    match exit {
        Exit::Goto(_) => false,
        Exit::Split { .. } => false,
        Exit::Call { .. } => false,
        Exit::Return(_) => false,
        Exit::Ends(other) => match (kind, *other) {
            (Trap::Divide, Trap::Divide) => true,
            (Trap::Index, Trap::Index) => true,
            (Trap::Input, Trap::Input) => true,
            (Trap::Depth, Trap::Depth) => true,
            _ => false,
        },
    }
}
