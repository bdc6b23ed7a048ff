// The arrays of a graph under names: the base of one that was handed over is a parameter, and has the name of that one.

ghost use Rattle.std.specs.Prelude.{◌≡◌, map, IfOk};
ghost use Rattle.std.specs.List.{list_all};
ghost use Rattle.vx_rename.specs.Renaming.{array_enters, base_enters, enters_as, parameter_name, renamed_array, renamed_base};

use std::alloc::Global;
use vx_base::listed::Listed;
use vx_base::outcome::NoMemory;
use vx_flow::graph::{Array, Value};

/// The parameter of the new graph in the place of a value that is one of the old graph.
fn parameter_name(old: &[Value], new: &[Value], value: Value) -> Value
    ensures { result ≡ parameter_name old.now new.now value }
{
    match old.split_first() {
        None => value,
        Some((parameter, old_left)) => match new.split_first() {
            None => value,
            Some((name, new_left)) => {
                if value == *parameter {
                    *name
                } else {
                    parameter_name(old_left, new_left, value)
                }
            }
        },
    }
}

/// Whether an old value and a new one hold one argument at the entry.
fn enters_as(old: &[Value], new: &[Value], value: Value, name: Value) -> bool
    ensures { result ≡ enters_as old.now new.now value name }
{
    match old.split_first() {
        None => false,
        Some((parameter, old_left)) => match new.split_first() {
            None => false,
            Some((first, new_left)) => {
                if value == *parameter {
                    name == *first
                } else {
                    name != *first && enters_as(old_left, new_left, value, name)
                }
            }
        },
    }
}

fn base_enters(old: &[Value], new: &[Value], base: Option<Value>) -> bool
    ensures { result ≡ base_enters old.now new.now base }
{
    match base {
        Some(base) => enters_as(old, new, base, parameter_name(old, new, base)),
        None => true,
    }
}

/// Whether the base of an array that was handed over holds at the entry what its name does.
fn array_enters(old: &[Value], new: &[Value], array: &Array) -> bool
    ensures { result ≡ array_enters old.now new.now array.now }
{
    base_enters(old, new, array.base)
}

pub(crate) fn arrays_enter(old: &[Value], new: &[Value], arrays: &[Array]) -> bool
    ensures { result ≡ list_all (array_enters old.now new.now) arrays.now }
{
    for array in arrays {
        if !array_enters(old, new, array) {
            return false;
        }
    }
    true
}

fn renamed_base(old: &[Value], new: &[Value], base: Option<Value>) -> Option<Value>
    ensures { result ≡ renamed_base (parameter_name old.now new.now) base }
{
    match base {
        Some(base) => Some(parameter_name(old, new, base)),
        None => None,
    }
}

fn renamed_array(old: &[Value], new: &[Value], array: &Array) -> Array
    ensures { result ≡ renamed_array (parameter_name old.now new.now) array.now }
{
    Array {
        words: array.words,
        global: array.global,
        named: array.named,
        base: renamed_base(old, new, array.base),
    }
}

/// The arrays, each with the name of its base.
pub(crate) fn renamed_arrays(
    alloc: Global,
    old: &[Value],
    new: &[Value],
    arrays: &[Array],
) -> Result<Listed<Array>, NoMemory>
    ensures { IfOk result (λ made. made ≡ map (renamed_array (parameter_name old.now new.now)) arrays.now) }
{
    let mut made = Listed::new(alloc);
    let mut rest = arrays;
    'name: loop {
        match rest.split_first() {
            None => return Ok(made),
            Some((array, others)) => {
                made.push(renamed_array(old, new, array))?;
                rest = others;
            }
        }
    }
}
