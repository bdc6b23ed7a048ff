// The values of a caller that are free where its block calls.

ghost use Rattle.std.specs.Prelude.{◌≡◌, ◌++◌, true, IfOk};
ghost use Rattle.std.specs.List.{flat_map};
ghost use Rattle.vx_flow.specs.declared.graph.Bank.{Bank};
ghost use Rattle.vx_inline.specs.Finding.{seen};
ghost use Rattle.vx_inline.specs.Values.{first_free, given_bases, has_values, is_bare, kept, local_place, local_places, of_bank};

use crate::by_bank::{ByBank, first_unmarked, named};
use crate::found_call::FoundCall;
use crate::marks::marks_of;
use crate::names::push_operands;
use std::alloc::Global;
use vx_base::listed::{Listed, copied};
use vx_base::outcome::NoMemory;
use vx_flow::arrays::is_local;
use vx_flow::graph::{Array, Block, Op, Value};
use vx_flow::live_rows::Live;
use vx_flow::operands::push_value;

/// The first free values by their bank, at most as many as there are others, by what is live at the blocks of the caller. A caller
/// that is told to be bare is not looked through.
#[tactic(auto, using(crate::proofs::Named::free_by))]
pub(crate) fn free_values(
    alloc: Global,
    live: &Live,
    found: &FoundCall,
    others: &ByBank,
    bare: bool,
) -> Result<ByBank, NoMemory>
    requires { bare ≡ true → is_bare found.now.caller.now.arrays found.now.caller.now.blocks ≡ true }
    ensures { IfOk result (λ values. (bank : Bank) → of_bank values bank ≡ first_free live.now (seen found.now) others.now bank) }
{
    let kept = kept(alloc, live, found, bare)?;
    let marks = marks_of(alloc, found.caller.banks.len(), kept.as_slice())?;
    first_unmarked(
        alloc,
        found.caller.banks.as_slice(),
        marks.as_slice(),
        others,
    )
}

/// Whether of each bank as many values are free as the callee names.
#[tactic(auto, using(crate::proofs::Named::both_enough))]
pub(crate) fn has_values(
    alloc: Global,
    live: &Live,
    found: &FoundCall,
    bare: bool,
) -> Result<bool, NoMemory>
    requires { bare ≡ true → is_bare found.now.caller.now.arrays found.now.caller.now.blocks ≡ true }
    ensures { IfOk result (λ has. has ≡ has_values live.now (seen found.now)) }
{
    let named = named(alloc, found.callee)?;
    let free = free_values(alloc, live, found, &named, bare)?;
    Ok(named.general.len() <= free.general.len() && named.branch.len() <= free.branch.len())
}

/// The values that are not free: those that are live behind the call, its arguments and its result, places of arrays that are no
/// globals, and bases.
fn kept(
    alloc: Global,
    live: &Live,
    found: &FoundCall,
    bare: bool,
) -> Result<Listed<Value>, NoMemory>
    requires { bare ≡ true → is_bare found.now.caller.now.arrays found.now.caller.now.blocks ≡ true }
    ensures { IfOk result (λ values. values ≡ kept live.now (seen found.now)) }
{
    let mut values = copied(alloc, live.values_at(found.next))?;
    push_operands(&mut values, found.arguments.as_slice())?;
    push_value(&mut values, found.result)?;
    let arrays = found.caller.arrays.as_slice();
    push_places_of(&mut values, arrays, found.caller.blocks.as_slice(), bare)?;
    push_bases(&mut values, arrays)?;
    Ok(values)
}

/// Adds the places of arrays that are no globals, and the bases that are made, if blocks are not told to be bare.
#[tactic(auto, using(crate::proofs::BareBlocks::none_pushed))]
fn push_places_of(
    values: &mut Listed<Value>,
    arrays: &[Array],
    blocks: &[Block],
    bare: bool,
) -> Result<(), NoMemory>
    requires { bare ≡ true → is_bare arrays.now blocks.now ≡ true }
    ensures { IfOk result (λ _. values.new ≡ values.old ++ flat_map (local_places arrays.now) blocks.now) }
{
    if bare {
        Ok(())
    } else {
        push_places(values, arrays, blocks)
    }
}

fn push_places(
    values: &mut Listed<Value>,
    arrays: &[Array],
    blocks: &[Block],
) -> Result<(), NoMemory>
    ensures { IfOk result (λ _. values.new ≡ values.old ++ flat_map (local_places arrays.now) blocks.now) }
{
    for block in blocks {
        push_places_in(values, arrays, block.ops.as_slice())?;
    }
    Ok(())
}

fn push_places_in(values: &mut Listed<Value>, arrays: &[Array], ops: &[Op]) -> Result<(), NoMemory>
    ensures { IfOk result (λ _. values.new ≡ values.old ++ flat_map (local_place arrays.now) ops.now) }
{
    for op in ops {
        push_place(values, arrays, op)?;
    }
    Ok(())
}

fn push_place(values: &mut Listed<Value>, arrays: &[Array], op: &Op) -> Result<(), NoMemory>
    ensures { IfOk result (λ _. values.new ≡ values.old ++ local_place arrays.now op.now) }
{
    match op {
        Op::Place { to, array, .. } => {
            if is_local(arrays, *array) {
                values.push(*to)?;
            }
            Ok(())
        }
        Op::PlaceIn { to, .. } | Op::Base { to, .. } => {
            values.push(*to)?;
            Ok(())
        }
        _ => Ok(()),
    }
}

/// Adds the bases of arrays that were handed over.
fn push_bases(values: &mut Listed<Value>, arrays: &[Array]) -> Result<(), NoMemory>
    ensures { IfOk result (λ _. values.new ≡ values.old ++ given_bases arrays.now) }
{
    for array in arrays {
        push_value(values, array.base)?;
    }
    Ok(())
}
