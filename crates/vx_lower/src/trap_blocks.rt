// The blocks of a graph that is made, with its trap blocks last: one for each kind of trap that it has
// (specs/Finished.antt). The clause `stands` is what the code of each statement rests on.

ghost use Rattle.std.specs.Prelude.{◌≡◌, ◌≤◌, ◌<◌, ◌+◌, ◌^◌, ℕ, Some, ◌++◌, length, map, slice_get, IfOk, OnOk};
ghost use Rattle.std.specs.List.{list_any};
ghost use Rattle.vx_base.specs.declared.outcome.Trap.{Trap as ATrap};
ghost use Rattle.vx_flow.specs.declared.graph.Block.{Block as ABlock};
ghost use Rattle.vx_lower.specs.Builds.{Stands};
ghost use Rattle.vx_lower.specs.Finished.{AreShort, IsUsed, TrapsAt, TrapsLast, WereShort, finished, is_kind as same_kind, kinds_in, number_of as number, place_in, settled, trap_block, traps_by as has_trap, where_used};
ghost use Rattle.vx_lower.specs.Holds.{ends};
ghost use Rattle.vx_lower.specs.Shape.{Settled};

use crate::slots::Slots;
use std::alloc::Global;
use vx_base::listed::{Listed, MOST_ITEMS};
use vx_base::outcome::{NoMemory, Trap};
use vx_flow::graph::{Block, Exit, Operand};

fn empty(alloc: Global, exit: Exit) -> Block
    ensures { result ≡ ends exit }
{
    Block {
        ops: Listed::new(alloc),
        exit,
    }
}

/// The kinds of traps by number, in the order of their blocks.
fn number_of(kind: Trap) -> u32
    ensures { result ≡ number kind }
{
    match kind {
        Trap::Divide => 0,
        Trap::Index => 1,
        Trap::Input => 2,
        Trap::Depth => 3,
    }
}

fn is_kind(one: Trap, other: Trap) -> bool
    ensures { result ≡ same_kind one other }
{
    number_of(one) == number_of(other)
}

/// Whether a slot holds a block that ends by a trap of a kind.
fn traps_by(slot: &Option<Block>, kind: Trap) -> bool
    ensures { result ≡ has_trap kind slot.now }
{
    match slot {
        None => false,
        Some(block) => match block.exit {
            Exit::Ends(trap) => is_kind(trap, kind),
            Exit::Goto(_) => false,
            Exit::Split { .. } => false,
            Exit::Call { .. } => false,
            Exit::Return(_) => false,
        },
    }
}

/// Whether some block ends by a trap of a kind.
fn is_used(slots: &[Option<Block>], kind: Trap) -> bool
    ensures { result ≡ list_any (has_trap kind) slots.now }
{
    for slot in slots {
        if traps_by(slot, kind) {
            return true;
        }
    }
    false
}

/// A kind of trap is put behind others, where some block ends by it.
fn add_kind(kinds: &mut Vec<Trap>, slots: &[Option<Block>], kind: Trap) -> Result<(), NoMemory>
    ensures { OnOk result (kinds.new.items ≡ kinds.old.items ++ where_used slots.now kind) }
{
    if is_used(slots, kind) {
        kinds.push(kind)?;
    }
    Ok(())
}

/// The kinds of traps that blocks end by.
fn kinds_of(alloc: Global, slots: &[Option<Block>]) -> Result<Vec<Trap>, NoMemory>
    ensures { IfOk result (λ kinds. kinds.items ≡ kinds_in slots.now) }
{
    let mut kinds = Vec::new(alloc);
    add_kind(&mut kinds, slots, Trap::Divide)?;
    add_kind(&mut kinds, slots, Trap::Index)?;
    add_kind(&mut kinds, slots, Trap::Input)?;
    add_kind(&mut kinds, slots, Trap::Depth)?;
    Ok(kinds)
}

/// The place of a kind among those that are used.
fn place_of(kinds: &[Trap], kind: Trap) -> usize
    ensures place { result ≡ place_in kinds.now kind }
    ensures within { result ≤ length kinds.now }
{
    let mut place = 0;
    for other in kinds {
        if is_kind(*other, kind) {
            return place;
        }
        place += 1;
    }
    place
}

/// A block with a jump in place of its trap; one that waits returns 0.
fn settle(alloc: Global, slot: Option<Block>, count: u32, kinds: &[Trap]) -> Block
    requires { count + length kinds.now < 2 ^ 32 }
    ensures { result ≡ settled count kinds.now slot }
{
    match slot {
        None => empty(alloc, Exit::Return(Operand::Number(0))),
        Some(block) => match block.exit {
            Exit::Ends(trap) => empty(alloc, Exit::Goto(count + place_of(kinds, trap) as u32)),
            exit => Block {
                ops: block.ops,
                exit,
            },
        },
    }
}

/// All blocks with jumps in place of their traps. Want of memory also where they and the trap blocks, of which there are four
/// kinds, would be more than a list holds.
fn settle_all(
    alloc: Global,
    slots: Vec<Option<Block>>,
    kinds: &[Trap],
) -> Result<Vec<Block>, NoMemory>
    requires { length kinds.now ≤ 4 }
    ensures { IfOk result (λ blocks. blocks.items ≡ map (settled (length slots.items) kinds.now) slots.items) }
{
    let count = slots.len();
    if count > MOST_ITEMS - kinds.len() {
        return Err(NoMemory);
    }
    let mut blocks = Vec::new(alloc);
    for slot in slots {
        blocks.push(settle(alloc, slot, count as u32, kinds))?;
    }
    Ok(blocks)
}

/// The trap blocks are put behind the others.
fn add_traps(alloc: Global, blocks: &mut Vec<Block>, kinds: &[Trap]) -> Result<(), NoMemory>
    ensures { OnOk result (blocks.new.items ≡ blocks.old.items ++ map trap_block kinds.now) }
{
    for kind in kinds {
        blocks.push(empty(alloc, Exit::Ends(*kind)))?;
    }
    Ok(())
}

#[tactic(auto, using(crate::proofs::TrapBlocks::few_kinds))]
fn finish_all(alloc: Global, slots: Vec<Option<Block>>) -> Result<Listed<Block>, NoMemory>
    ensures { IfOk result (λ blocks. blocks ≡ finished slots.items) }
{
    let kinds = kinds_of(alloc, slots.as_slice())?;
    let mut blocks = settle_all(alloc, slots, kinds.as_slice())?;
    add_traps(alloc, &mut blocks, kinds.as_slice())?;
    Ok(Listed::from_vec(blocks)?)
}

/// The finished blocks, and the trap blocks behind them. A block that ends by a trap becomes a jump to the trap block
/// of its kind; a kind that no block ends by has none.
pub fn finish(alloc: Global, slots: Slots<Option<Block>>) -> Result<Listed<Block>, NoMemory>
    ensures blocks { IfOk result (λ blocks. blocks ≡ finished slots) }
    ensures stands { IfOk result (λ blocks. (n : ℕ) (block : ABlock) → slice_get slots n ≡ Some (Some block) → Stands blocks n block block.exit) }
    ensures traps { IfOk result (λ blocks. TrapsLast blocks) }
    ensures used { IfOk result (λ blocks. (b : ℕ) (k : ATrap) → TrapsAt blocks b k → IsUsed slots k) }
    ensures short { IfOk result (λ blocks. WereShort slots → AreShort blocks) }
    ensures settled { IfOk result (λ blocks. Settled slots blocks) }
{
    let blocks = finish_all(alloc, slots.into_vec())?;
    Ok(blocks)
}
