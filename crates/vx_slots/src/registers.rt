// The registers by which words name values: a value's own where it has one, else a scratch register by the value's place
// among those of the word that are in slots.

ghost use Rattle.std.specs.Prelude.{◌≡◌, ◌<◌, ◌≤◌, ◌+◌, ◌^◌, ◌++◌, ◌∷◌, ◌==◌, not, IfOk, length};
ghost use Rattle.std.specs.List.{filter};
ghost use Rattle.vx_mixed.specs.LaidSettled.{bank_in};
ghost use Rattle.vx_target.specs.Target.{stack_on, kept, is_slotted, is_branch, holds_branch, home, same_file, slotted, once, scratch, general, general_of, branch_of, register_of, source_of};
ghost use Rattle.vx_slots.specs.Seen.{seen};

use crate::program::Whole;
use std::alloc::Global;
use vx_base::listed::Listed;
use vx_base::outcome::NoMemory;
use vx_flow::graph::{Bank, Operand, Value};
use vx_isa::operation::{BranchRegister, GeneralRegister, Register, Source};
use vx_mixed::layout::VWords;
use vx_regs::home_in;
use vx_regs::map::Kept;

/// The first scratch register of a cluster.
const FIRST_SCRATCH: u32 = 3;

/// A general register.
pub fn general(cluster: u32, number: u32) -> GeneralRegister
    ensures { result ≡ general cluster number }
{
    GeneralRegister { cluster, number }
}

/// The stack pointer of a cluster.
pub fn stack_on(cluster: u32) -> GeneralRegister
    ensures { result ≡ stack_on cluster }
{
    general(cluster, 1)
}

/// Where a value is kept.
pub fn kept(whole: &Whole, function: u32, value: Value) -> Kept
    ensures { result ≡ kept (seen whole.now) function value }
{
    match whole.maps.get(function as usize) {
        Some(map) => match map.values.as_slice().get(value as usize) {
            Some(kept) => *kept,
            None => Kept::Nowhere,
        },
        None => Kept::Nowhere,
    }
}

/// Whether a value that is kept so is in no register.
pub fn is_in_slot(kept: Kept) -> bool
    ensures { result ≡ is_slotted kept }
{
    match kept {
        Kept::InRegister(_) => false,
        Kept::InSlot(_) => true,
        Kept::Nowhere => true,
    }
}

/// Whether a value is in no register.
pub fn is_slotted(whole: &Whole, function: u32, value: Value) -> bool
    ensures { result ≡ is_slotted (kept (seen whole.now) function value) }
{
    is_in_slot(kept(whole, function, value))
}

/// Whether a value of a layout is a branch value.
pub fn is_branch_value(layout: &VWords, value: Value) -> bool
    ensures { result ≡ is_branch (bank_in layout.now value) }
{
    let banks = layout.banks.as_slice();
    if banks.is_empty() {
        return false;
    }
    match banks.get(value as usize % banks.len()) {
        Some(Bank::Branch) => true,
        Some(Bank::General) => false,
        None => false,
    }
}

/// Whether a value is a branch value.
pub fn holds_branch(whole: &Whole, function: u32, value: Value) -> bool
    ensures { result ≡ holds_branch (seen whole.now) function value }
{
    match whole.layouts.get(function as usize) {
        Some(layout) => is_branch_value(layout, value),
        None => false,
    }
}

/// The cluster on which a value stands.
pub fn home(whole: &Whole, function: u32, value: Value) -> u32
    ensures { result ≡ home (seen whole.now) function value }
{
    match whole.layouts.get(function as usize) {
        Some(layout) => home_in(layout, value),
        None => 0,
    }
}

/// Whether both have their registers in one file.
pub fn are_of_one_file(whole: &Whole, function: u32, one: Value, other: Value) -> bool
    ensures { result ≡ same_file (seen whole.now) function one other }
{
    let branch = holds_branch(whole, function, one);
    if branch != holds_branch(whole, function, other) {
        false
    } else if branch {
        true
    } else {
        home(whole, function, one) == home(whole, function, other)
    }
}

/// Adds those of some values that are not in registers.
fn push_slotted(
    whole: &Whole,
    function: u32,
    values: &[Value],
    found: &mut Listed<Value>,
) -> Result<(), NoMemory>
    ensures { IfOk result (λ _. found.new ≡ found.old ++ slotted (seen whole.now) function values.now) }
{
    match values.split_first() {
        None => Ok(()),
        Some((value, rest)) => {
            if is_slotted(whole, function, *value) {
                found.push(*value)?;
            }
            push_slotted(whole, function, rest, found)
        }
    }
}

/// Those of some values that are not in registers.
pub fn slotted(
    alloc: Global,
    whole: &Whole,
    function: u32,
    values: &[Value],
) -> Result<Listed<Value>, NoMemory>
    ensures { IfOk result (λ found. found ≡ slotted (seen whole.now) function values.now) }
{
    let mut found = Listed::new(alloc);
    push_slotted(whole, function, values, &mut found)?;
    Ok(found)
}

/// Adds those of some values that are not one of them.
fn push_others(values: &[Value], but: Value, found: &mut Listed<Value>) -> Result<(), NoMemory>
    ensures { IfOk result (λ _. found.new ≡ found.old ++ filter (λ u. not (u == but)) values.now) }
{
    match values.split_first() {
        None => Ok(()),
        Some((value, rest)) => {
            if *value != but {
                found.push(*value)?;
            }
            push_others(rest, but, found)
        }
    }
}

/// A value, and those of others that are not it.
fn in_front(alloc: Global, value: Value, others: &[Value]) -> Result<Listed<Value>, NoMemory>
    ensures { IfOk result (λ found. found ≡ value ∷ filter (λ u. not (u == value)) others.now) }
{
    let mut found = Listed::new(alloc);
    found.push(value)?;
    push_others(others, value, &mut found)?;
    Ok(found)
}

/// Each of some values once, where it stands first. Some values are those that one word reads.
pub fn once(alloc: Global, values: &[Value]) -> Result<Listed<Value>, NoMemory>
    ensures { IfOk result (λ found. found ≡ once values.now) }
{
    match values.split_first() {
        None => Ok(Listed::new(alloc)),
        Some((value, rest)) => {
            let others = once(alloc, rest)?;
            in_front(alloc, *value, others.as_slice())
        }
    }
}

/// The number of the scratch register of a value among those that a word names.
fn scratch(whole: &Whole, function: u32, names: &[Value], value: Value) -> u32
    requires few { length names.now < 2 ^ 31 }
    ensures exact { result ≡ scratch (seen whole.now) function names.now value }
    ensures bound { result ≤ length names.now }
{
    match names.split_first() {
        None => 0,
        Some((name, rest)) => {
            if !is_slotted(whole, function, *name)
                || !are_of_one_file(whole, function, *name, value)
            {
                scratch(whole, function, rest, value)
            } else if *name == value {
                0
            } else {
                1 + scratch(whole, function, rest, value)
            }
        }
    }
}

/// The general scratch register of a value among those that a word names.
fn scratch_of(whole: &Whole, function: u32, names: &[Value], value: Value) -> GeneralRegister
    requires few { length names.now < 2 ^ 31 }
    ensures { result ≡ general (home (seen whole.now) function value) (3 + scratch (seen whole.now) function names.now value) }
{
    let cluster = home(whole, function, value);
    general(
        cluster,
        FIRST_SCRATCH + scratch(whole, function, names, value),
    )
}

/// The general register by which a word that names these values names one.
pub fn general_of(whole: &Whole, function: u32, names: &[Value], value: Value) -> GeneralRegister
    requires few { length names.now < 2 ^ 31 }
    ensures { result ≡ general_of (seen whole.now) function names.now value }
{
    match kept(whole, function, value) {
        Kept::InRegister(number) => general(home(whole, function, value), number),
        Kept::InSlot(_) => scratch_of(whole, function, names, value),
        Kept::Nowhere => scratch_of(whole, function, names, value),
    }
}

/// The branch register by which a word that names these values names one.
pub fn branch_of(whole: &Whole, function: u32, names: &[Value], value: Value) -> u32
    requires few { length names.now < 2 ^ 31 }
    ensures { result ≡ branch_of (seen whole.now) function names.now value }
{
    match kept(whole, function, value) {
        Kept::InRegister(number) => number,
        Kept::InSlot(_) => scratch(whole, function, names, value),
        Kept::Nowhere => scratch(whole, function, names, value),
    }
}

/// The register by which a word that names these values names one.
pub fn register_of(whole: &Whole, function: u32, names: &[Value], value: Value) -> Register
    requires few { length names.now < 2 ^ 31 }
    ensures { result ≡ register_of (seen whole.now) function names.now value }
{
    if holds_branch(whole, function, value) {
        Register::Branch(BranchRegister {
            cluster: 0,
            number: branch_of(whole, function, names, value),
        })
    } else {
        Register::General(general_of(whole, function, names, value))
    }
}

/// An operand of a word that names these values.
pub fn source_of(whole: &Whole, function: u32, names: &[Value], operand: Operand) -> Source
    requires few { length names.now < 2 ^ 31 }
    ensures { result ≡ source_of (general_of (seen whole.now) function names.now) operand }
{
    match operand {
        Operand::Held(value) => Source::Held(general_of(whole, function, names, value)),
        Operand::Number(number) => Source::Number(number),
        Operand::Stack => Source::Number(0),
    }
}
