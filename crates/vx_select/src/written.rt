// Which values operations write, in ascending order. Sides are short, so they are gone through for each value.

ghost use Rattle.std.specs.Prelude.{◌≡◌, ◌≤◌, ◌||◌, ℕ, IfOk};
ghost use Rattle.vx_flow.specs.Operands.{values_read, value_list};
ghost use Rattle.std.specs.List.{list_any};
ghost use Rattle.vx_select.specs.Selected.{has, those_from};
ghost use Rattle.vx_select.specs.Values.{are_writing, either_writing, lesser, names_it, writes_it, IsNext};

use std::alloc::Global;
use vx_base::outcome::NoMemory;
use vx_flow::graph::{Op, Value};
use vx_flow::operands::{Reads, read_by, written_by};

/// Whether one of the operations writes a value.
pub(crate) fn writes(ops: &[Op], value: Value) -> bool
    ensures { result ≡ are_writing ops.now value }
{
    for op in ops {
        if writes_it(op, value) {
            return true;
        }
    }
    false
}

/// Whether one of the operations writes or reads a value.
pub(crate) fn names(ops: &[Op], value: Value) -> bool
    ensures { result ≡ list_any (names_it value) ops.now }
{
    for op in ops {
        if names_it(op, value) {
            return true;
        }
    }
    false
}

fn writes_it(op: &Op, value: Value) -> bool
    ensures { result ≡ writes_it value op.now }
{
    is_it(written_by(op), value)
}

fn names_it(op: &Op, value: Value) -> bool
    ensures { result ≡ names_it value op.now }
{
    writes_it(op, value) || is_read(read_by(op), value)
}

#[tactic(auto, using(crate::proofs::Found::read_is))]
fn is_read(read: Reads, value: Value) -> bool
    ensures { result ≡ has (values_read read) value }
{
    is_it(read.first, value) || is_it(read.second, value) || is_it(read.third, value)
}

fn is_it(named: Option<Value>, value: Value) -> bool
    ensures { result ≡ has (value_list named) value }
{
    match named {
        Some(named) => named == value,
        None => false,
    }
}

/// The least value from a number on that one of the two lists of operations writes.
#[tactic(auto, using(crate::proofs::Found::lesser_next))]
fn next(left: &[Op], right: &[Op], from: Value) -> Option<Value>
    ensures { IsNext (either_writing left.now right.now) from result }
{
    lesser(next_of(left, from), next_of(right, from))
}

#[tactic(auto, using(crate::proofs::Found::lesser_next))]
fn next_of(ops: &[Op], from: Value) -> Option<Value>
    ensures { IsNext (are_writing ops.now) from result }
{
    match ops.split_first() {
        Some((op, rest)) => lesser(written_from(op, from), next_of(rest, from)),
        None => None,
    }
}

/// The value that an operation writes, if it is not below a number.
fn written_from(op: &Op, from: Value) -> Option<Value>
    ensures { IsNext (λ v. writes_it v op.now) from result }
{
    match written_by(op) {
        Some(value) => { if value >= from { Some(value) } else { None } }
        None => None,
    }
}

fn lesser(one: Option<Value>, other: Option<Value>) -> Option<Value>
    ensures { result ≡ lesser one other }
{
    match (one, other) {
        (Some(one), Some(other)) => Some(if one <= other { one } else { other }),
        (Some(one), None) => Some(one),
        (None, other) => other,
    }
}

/// The values below a count that one of the two lists of operations writes, in ascending order.
pub(crate) fn written(
    alloc: Global,
    left: &[Op],
    right: &[Op],
    count: Value,
) -> Result<Vec<Value>, NoMemory>
    ensures { IfOk result (λ values. values.items ≡ those_from (either_writing left.now right.now) 0 count) }
{
    let mut values = Vec::new(alloc);
    let mut from: Value = 0;
    'values: loop {
        match next(left, right, from) {
            Some(value) => {
                if value >= count {
                    return Ok(values);
                }
                values.push(value)?;
                from = value + 1;
            }
            None => return Ok(values),
        }
    }
}
