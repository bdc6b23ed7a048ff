// Registers and slots of the values of small layouts, worked out by hand.

use crate::inside::lead_inside;
use crate::layouts::{few, many};
use std::alloc::Global;
use std::test::Fail;
use vx_base::outcome::NoMemory;
use vx_machine::Machine;
use vx_mixed::layout::VWords;
use vx_regs::map::{Kept, RegMap};
use vx_regs::registers;
use vx_test_machines::{Kind, machine};

/// The registers of a layout, if its words lead to words of it.
fn map_of(alloc: Global, machine: &Machine, layout: &VWords) -> Result<Option<RegMap>, NoMemory> {
    let words = layout.words.as_slice();
    if (layout.entry as usize) < words.len() && lead_inside(words) {
        Ok(Some(registers(alloc, layout, machine)?))
    } else {
        Ok(None)
    }
}

/// The same for the narrow machine, which has 11 allocatable general registers: 5 to 15.
fn narrow_map(alloc: Global, layout: &VWords) -> Result<Option<RegMap>, NoMemory> {
    let machine = machine(alloc, Kind::Narrow)?;
    map_of(alloc, &machine, layout)
}

fn is_in_register(kept: &Kept) -> bool {
    match kept {
        Kept::InRegister(number) => 5 <= *number && *number < 16,
        Kept::InSlot(_) => false,
        Kept::Nowhere => false,
    }
}

fn is_in_slot(kept: &Kept) -> bool {
    match kept {
        Kept::InSlot(_) => true,
        Kept::InRegister(_) => false,
        Kept::Nowhere => false,
    }
}

fn is_nowhere(kept: Option<&Kept>) -> bool {
    match kept {
        Some(Kept::Nowhere) => true,
        Some(_) => false,
        None => true,
    }
}

/// Values 0 to 4 are named, and each has a register; value 5 is kept nowhere.
fn are_five(kept: &[Kept]) -> bool {
    kept.iter().take(5).all(|kept| is_in_register(kept)) && is_nowhere(kept.get(5))
}

/// At word 40 all forty intervals overlap; those that end last are in slots, the eleven that end first in registers.
fn are_eleven(kept: &[Kept]) -> bool {
    kept.len() == 40
        && kept.iter().take(29).all(|kept| is_in_slot(kept))
        && kept.iter().skip(29).all(|kept| is_in_register(kept))
}

fn keeps_few(alloc: Global) -> Result<bool, NoMemory> {
    let layout = few(alloc)?;
    match narrow_map(alloc, &layout)? {
        Some(map) => Ok(are_five(map.values.as_slice())),
        None => Ok(false),
    }
}

fn keeps_many(alloc: Global) -> Result<bool, NoMemory> {
    let layout = many(alloc)?;
    match narrow_map(alloc, &layout)? {
        Some(map) => Ok(are_eleven(map.values.as_slice())),
        None => Ok(false),
    }
}

#[test]
fn few_values_have_registers(rt: HostRuntime) -> Result<(), Fail> {
    assert!(rt; keeps_few(rt.alloc())?);
    Ok(())
}

#[test]
fn eleven_of_forty_have_registers(rt: HostRuntime) -> Result<(), Fail> {
    assert!(rt; keeps_many(rt.alloc())?);
    Ok(())
}
