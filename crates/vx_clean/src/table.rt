// Tables of numbers by the number of a block. What is not there reads as `NONE`, and is not set.

ghost use Rattle.std.specs.Prelude.{◌≡◌, IfOk, length, replicate};

use std::alloc::Global;
use vx_base::outcome::NoMemory;
use vx_flow::graph::BlockId;

/// No block.
pub const NONE: BlockId = u32::MAX;

/// More than one block.
pub const MANY: BlockId = u32::MAX - 1;

/// The number of the block at a place.
pub(crate) fn number_at(place: usize) -> BlockId {
    if place < MANY as usize {
        place as u32
    } else {
        NONE
    }
}

/// A table that has the number everywhere.
pub(crate) fn filled(alloc: Global, count: usize, number: u32) -> Result<Vec<u32>, NoMemory>
    ensures { IfOk result (λ table. table.items ≡ replicate count number) }
{
    Ok(vec![in alloc; number; count]?)
}

/// The number of a block.
pub(crate) fn at(table: &[u32], block: BlockId) -> u32 {
    match table.get(block as usize) {
        Some(number) => *number,
        None => NONE,
    }
}

/// Gives a block another number.
pub(crate) fn put(table: &mut Vec<u32>, block: BlockId, number: u32)
    ensures { length table.new.items ≡ length table.old.items }
{
    if (block as usize) < table.len() {
        table[block as usize] = number;
    }
}
