// Whether a graph has the shape that the graph of a function has: short blocks, traps that are alone, empty and last, splits
// with two sides, no edge to the entry, and none from a split to a block with another before it.

ghost use Rattle.std.specs.Prelude.{◌≡◌, ◌==◌, false, not, slice_get};
ghost use Rattle.std.specs.List.{list_all};
ghost use Rattle.vx_flow.specs.Sound.{targets_of};
ghost use Rattle.vx_shape.specs.ShapeTest.{are_traps_alone, are_traps_last, are_uncritical, is_apart, is_noted, is_none_left, is_shaped, is_shaped_block, is_this, is_trap, is_trap_alone, is_trap_of, is_uncritical};

use vx_base::outcome::Trap;
use vx_flow::graph::{Block, BlockId, Exit};

/// The most operations of a block.
pub const MOST_OPS: usize = 512;

/// Whether blocks have the shape, where the list has for each block the number of the one before it, or how many blocks there
/// are where it has many before it.
pub fn is_shaped(origins: &[usize], blocks: &[Block]) -> bool
    ensures { result ≡ is_shaped origins.now blocks.now }
{
    are_shaped_blocks(blocks)
        && are_traps_last(blocks)
        && are_traps_alone(blocks)
        && are_uncritical(origins, blocks.len(), blocks)
}

fn are_shaped_blocks(blocks: &[Block]) -> bool
    ensures { result ≡ list_all is_shaped_block blocks.now }
{
    for block in blocks {
        if !is_shaped_block(block) {
            return false;
        }
    }
    true
}

fn is_shaped_block(block: &Block) -> bool
    ensures { result ≡ is_shaped_block block.now }
{
    block.ops.len() <= MOST_OPS
        && (!is_trap(&block.exit) || has_no_ops(block))
        && is_apart(&block.exit)
        && leaves_entry(&block.exit)
}

/// Whether a block has no operations.
pub fn has_no_ops(block: &Block) -> bool
    ensures { result ≡ is_none_left block.now.ops }
{
    match block.ops.as_slice() {
        [] => true,
        _ => false,
    }
}

/// Whether an exit is a trap.
pub fn is_trap(exit: &Exit) -> bool
    ensures { result ≡ is_trap exit.now }
{
    match exit {
        Exit::Goto(_) => false,
        Exit::Split { .. } => false,
        Exit::Call { .. } => false,
        Exit::Return(_) => false,
        Exit::Ends(_) => true,
    }
}

fn is_apart(exit: &Exit) -> bool
    ensures { result ≡ is_apart exit.now }
{
    match exit {
        Exit::Goto(_) => true,
        Exit::Split { yes, no, .. } => *yes != *no,
        Exit::Call { .. } => true,
        Exit::Return(_) => true,
        Exit::Ends(_) => true,
    }
}

/// Whether an exit does not lead to the entry.
fn leaves_entry(exit: &Exit) -> bool
    ensures { result ≡ list_all (λ c. not (c == 0)) (targets_of exit.now) }
{
    match exit {
        Exit::Goto(next) => *next != 0,
        Exit::Split { yes, no, .. } => *yes != 0 && *no != 0,
        Exit::Call { next, .. } => *next != 0,
        Exit::Return(_) => true,
        Exit::Ends(_) => true,
    }
}

/// Whether no block stands behind a trap but traps.
fn are_traps_last(blocks: &[Block]) -> bool
    ensures { result ≡ are_traps_last false blocks.now }
{
    let mut behind = false;
    for block in blocks {
        let trap = is_trap(&block.exit);
        if behind && !trap {
            return false;
        }
        behind = behind || trap;
    }
    true
}

/// Whether no trap stands twice. There are few kinds of them.
fn are_traps_alone(blocks: &[Block]) -> bool
    ensures { result ≡ are_traps_alone blocks.now }
{
    for (place, block) in blocks.iter().enumerate() {
        if !is_trap_alone(&block.exit, &blocks[place + 1..]) {
            return false;
        }
    }
    true
}

fn is_trap_alone(exit: &Exit, later: &[Block]) -> bool
    ensures { result ≡ is_trap_alone exit.now later.now }
{
    match exit {
        Exit::Goto(_) => true,
        Exit::Split { .. } => true,
        Exit::Call { .. } => true,
        Exit::Return(_) => true,
        Exit::Ends(trap) => are_other(*trap, later),
    }
}

fn are_other(trap: Trap, blocks: &[Block]) -> bool
    ensures { result ≡ list_all (λ block. not (is_trap_of trap block.exit)) blocks.now }
{
    for block in blocks {
        if is_trap_of(trap, &block.exit) {
            return false;
        }
    }
    true
}

fn is_trap_of(trap: Trap, exit: &Exit) -> bool
    ensures { result ≡ is_trap_of trap exit.now }
{
    match exit {
        Exit::Goto(_) => false,
        Exit::Split { .. } => false,
        Exit::Call { .. } => false,
        Exit::Return(_) => false,
        Exit::Ends(other) => match (trap, *other) {
            (Trap::Divide, Trap::Divide) => true,
            (Trap::Index, Trap::Index) => true,
            (Trap::Input, Trap::Input) => true,
            (Trap::Depth, Trap::Depth) => true,
            _ => false,
        },
    }
}

/// Whether each block is the only one before each side of its split, and is noted before each other block that it leads to.
fn are_uncritical(origins: &[usize], many: usize, blocks: &[Block]) -> bool
    ensures { result ≡ are_uncritical origins.now many 0 blocks.now }
{
    for (place, block) in blocks.iter().enumerate() {
        if !is_uncritical(origins, many, place, &block.exit) {
            return false;
        }
    }
    true
}

fn is_uncritical(origins: &[usize], many: usize, from: usize, exit: &Exit) -> bool
    ensures { result ≡ is_uncritical origins.now many from exit.now }
{
    match exit {
        Exit::Goto(next) => is_noted(origins, many, from, *next),
        Exit::Split { yes, no, .. } => is_this(origins, from, *yes) && is_this(origins, from, *no),
        Exit::Call { next, .. } => is_noted(origins, many, from, *next),
        Exit::Return(_) => true,
        Exit::Ends(_) => true,
    }
}

fn is_this(origins: &[usize], from: usize, block: BlockId) -> bool
    ensures { result ≡ is_this from (slice_get origins.now block) }
{
    match origins.get(block as usize) {
        Some(origin) => *origin == from,
        None => false,
    }
}

fn is_noted(origins: &[usize], many: usize, from: usize, block: BlockId) -> bool
    ensures { result ≡ is_noted many from (slice_get origins.now block) }
{
    match origins.get(block as usize) {
        Some(origin) => *origin == from || *origin == many,
        None => false,
    }
}
