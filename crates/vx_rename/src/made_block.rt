// A block under names: what stands at its start is put, its operations are made one after the other, and each block to which it
// leads must find what stands at its start.

ghost use Rattle.std.specs.Prelude.{◌≡◌, true, IfOk, IfSome};
ghost use Rattle.std.specs.List.{list_all};
ghost use Rattle.vx_flow.specs.Sound.{targets_of};
ghost use Rattle.vx_rename.specs.Renaming.{carries, names_at, place_all, result_of, starting};
ghost use Rattle.vx_rename.specs.Making.{BlockMade, ExitLeads, ExitMade, name_in, standing};

use crate::made_ops::{made_ops, renamed_exit};
use crate::names::{BlockNames, Name};
use crate::table::Table;
use std::alloc::Global;
use vx_base::listed::Listed;
use vx_base::outcome::NoMemory;
use vx_flow::graph::{Block, BlockId, Exit, Op, Value};

/// Puts each of these values at its name.
fn place_all(table: &mut Table, start: &[Name]) -> bool
    ensures { result ≡ true → standing table.new ≡ place_all (standing table.old) start.now }
{
    for at in start {
        if !table.place(at.old, at.new) {
            return false;
        }
    }
    true
}

/// Whether what stands at the start of a block stands.
fn block_carries(blocks: &[BlockNames], table: &Table, block: BlockId) -> bool
    ensures { result ≡ carries (standing table.now) (names_at blocks.now block).start }
{
    match blocks.get(block as usize) {
        Some(at) => table.carries(at.start.as_slice()),
        None => true,
    }
}

/// Whether what stands at the start of each block to which an exit leads stands.
fn targets_carry(blocks: &[BlockNames], table: &Table, exit: &Exit) -> bool
    ensures { result ≡ list_all (λ c. carries (standing table.now) (names_at blocks.now c).start) (targets_of exit.now) }
{
    match exit {
        Exit::Goto(next) => block_carries(blocks, table, *next),
        Exit::Split { yes, no, .. } => {
            block_carries(blocks, table, *yes) && block_carries(blocks, table, *no)
        }
        Exit::Call { next, .. } => block_carries(blocks, table, *next),
        Exit::Return(_) => true,
        Exit::Ends(_) => true,
    }
}

/// The value that gets the result of a call at the end of a block, if there is one.
pub fn result_of(exit: &Exit) -> Option<Value>
    ensures { result ≡ result_of exit.now }
{
    match exit {
        Exit::Call { result, .. } => *result,
        _ => None,
    }
}

/// Whether an exit reads what stands, and leads where what stands at the start does behind it.
fn exit_stands(blocks: &[BlockNames], table: &mut Table, to: Value, exit: &Exit) -> bool
    ensures { result ≡ true → ExitLeads (names_at blocks.now) (standing table.old) to exit.now (standing table.new) }
{
    if !table.exit_reads_stand(exit) {
        return false;
    }
    if !table.put_if(result_of(exit), to) {
        return false;
    }
    targets_carry(blocks, table, exit)
}

/// The block of operations that were made, with its exit under names, where that stands.
fn with_exit(
    alloc: Global,
    blocks: &[BlockNames],
    table: &mut Table,
    to: Value,
    exit: &Exit,
    ops: Listed<Op>,
) -> Result<Option<Block>, NoMemory>
    ensures { IfOk result (λ found. IfSome found (λ made. ExitMade (names_at blocks.now) (standing table.old) to exit.now ops made (standing table.new))) }
{
    let new = renamed_exit(alloc, table.names(), to, exit)?;
    if exit_stands(blocks, table, to, exit) {
        Ok(Some(Block { ops, exit: new }))
    } else {
        Ok(None)
    }
}

/// Whether what is listed at the start of a block was put there, and nothing else; the new graph has so many values.
fn starts(
    alloc: Global,
    table: &mut Table,
    new_values: usize,
    at: &BlockNames,
) -> Result<bool, NoMemory>
    ensures { IfOk result (λ done. done ≡ true → standing table.new ≡ starting (name_in table.old.names) at.now) }
{
    if table.clear(alloc, new_values)? {
        Ok(place_all(table, at.start.as_slice()))
    } else {
        Ok(false)
    }
}

/// The block under names, where it passes the test. The table has the names that were given before; the new graph has so many values.
pub fn made_block(
    alloc: Global,
    blocks: &[BlockNames],
    table: &mut Table,
    new_values: usize,
    at: &BlockNames,
    block: &Block,
) -> Result<Option<Block>, NoMemory>
    ensures { IfOk result (λ found. IfSome found (λ made. BlockMade (names_at blocks.now) (name_in table.old.names) at.now block.now made (name_in table.new.names))) }
{
    if !starts(alloc, table, new_values, at)? {
        return Ok(None);
    }
    match made_ops(alloc, table, at.written.as_slice(), block.ops.as_slice())? {
        Some(ops) => with_exit(alloc, blocks, table, at.result, &block.exit, ops),
        None => Ok(None),
    }
}
