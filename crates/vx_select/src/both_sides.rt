// The operations of both sides of a diamond in one block, and what is chosen behind them.

ghost use Rattle.std.specs.Prelude.{◌≡◌, ◌≤◌, ◌++◌, IfOk, drop, length, map, take};
ghost use Rattle.vx_flow.specs.declared.graph.Op.TheVariants.{Select};
ghost use Rattle.vx_flow.specs.declared.graph.Operand.TheVariants.{Held};
ghost use Rattle.vx_flow.specs.Operands.{with_operands, with_value_in};
ghost use Rattle.vx_select.specs.Joining.{joined_by, now_behind, sides_by};
ghost use Rattle.vx_select.specs.Selected.{as_is, choice, moved, takes, writing_to};

use crate::corners::{Corners, ops_at};
use crate::values::Values;
use crate::written::writes;
use std::alloc::Global;
use vx_base::listed::{Listed, copied};
use vx_base::outcome::NoMemory;
use vx_flow::graph::{Graph, Op, Operand, Value};
use vx_flow::operands::{first_operand, second_operand, with_two};

/// The operations of the block that splits, then those of the left and of the right side, where each write and each read behind it
/// on the same side is of the value that is taken, and a choice of each value that is live where both meet.
pub(crate) fn joined_ops(
    alloc: Global,
    graph: &Graph,
    corners: &Corners,
    values: &Values,
) -> Result<Listed<Op>, NoMemory>
    ensures { IfOk result (λ ops. ops ≡ joined_by graph.now corners.now values.now) }
{
    let mut ops = copied(alloc, ops_at(graph, corners.block))?;
    push_sides(&mut ops, graph, corners, values)?;
    Ok(ops)
}

fn push_sides(
    ops: &mut Listed<Op>,
    graph: &Graph,
    corners: &Corners,
    values: &Values,
) -> Result<(), NoMemory>
    ensures { IfOk result (λ _. ops.new ≡ ops.old ++ sides_by graph.now corners.now values.now) }
{
    let left = values.left.as_slice();
    let right = values.right.as_slice();
    let left_free = values.free.as_slice();
    let right_free = behind(left_free, left.len());
    push_moved(ops, ops_at(graph, corners.yes), left, left_free)?;
    push_moved(ops, ops_at(graph, corners.no), right, right_free)?;
    push_choices(ops, values, right_free, corners.test)
}

/// The values behind so many.
fn behind(values: &[Value], count: usize) -> &[Value]
    ensures { result.now ≡ drop count values.now }
{
    if count <= values.len() {
        &values[count..]
    } else {
        &[]
    }
}

/// The operations before a place.
fn front(ops: &[Op], place: usize) -> &[Op]
    requires { place ≤ length ops.now }
    ensures { result.now ≡ take place ops.now }
{
    &ops[..place]
}

/// Adds the operations of a side, with the values that are taken.
fn push_moved(
    ops: &mut Listed<Op>,
    side: &[Op],
    values: &[Value],
    others: &[Value],
) -> Result<(), NoMemory>
    ensures { IfOk result (λ _. ops.new ≡ ops.old ++ moved (takes values.now others.now) as_is side.now) }
{
    for (place, op) in side.iter().enumerate() {
        let new = moved_op(op, front(side, place), values, others);
        ops.push(new)?;
    }
    Ok(())
}

/// An operation that reads what was taken before it, and writes what is taken.
fn moved_op(op: &Op, before: &[Op], values: &[Value], others: &[Value]) -> Op
    ensures { result ≡ writing_to (takes values.now others.now) (with_operands (with_value_in (now_behind (takes values.now others.now) before.now)) op.now) }
{
    let first = read_now(first_operand(op), before, values, others);
    let second = read_now(second_operand(op), before, values, others);
    writing_to(with_two(op, first, second), values, others)
}

/// What is read behind some operations.
fn read_now(operand: Operand, before: &[Op], values: &[Value], others: &[Value]) -> Operand
    ensures { result ≡ with_value_in (now_behind (takes values.now others.now) before.now) operand }
{
    match operand {
        Operand::Held(value) => Operand::Held(now_behind(value, before, values, others)),
        Operand::Number(number) => Operand::Number(number),
        Operand::Stack => Operand::Stack,
    }
}

/// The value that stands for one behind some operations: what it takes, if they write it.
fn now_behind(value: Value, before: &[Op], values: &[Value], others: &[Value]) -> Value
    ensures { result ≡ now_behind (takes values.now others.now) before.now value }
{
    if writes(before, value) {
        takes(value, values, others)
    } else {
        value
    }
}

/// The operation that writes what is taken.
fn writing_to(op: Op, values: &[Value], others: &[Value]) -> Op
    ensures { result ≡ writing_to (takes values.now others.now) op }
{
    match op {
        Op::Compute {
            code,
            to,
            left,
            right,
        } => Op::Compute {
            code,
            to: takes(to, values, others),
            left,
            right,
        },
        Op::Select {
            to,
            test,
            left,
            right,
        } => Op::Select {
            to: takes(to, values, others),
            test,
            left,
            right,
        },
        _ => op,
    }
}

/// What a value takes: the other one in its place, or itself where it is not among the values.
fn takes(value: Value, values: &[Value], others: &[Value]) -> Value
    ensures { result ≡ takes values.now others.now value }
{
    match values.split_first() {
        Some((first, values)) => match others.split_first() {
            Some((other, others)) => {
                if *first == value {
                    *other
                } else {
                    takes(value, values, others)
                }
            }
            None => value,
        },
        None => value,
    }
}

/// Adds a choice of each value that is chosen.
fn push_choices(
    ops: &mut Listed<Op>,
    values: &Values,
    right_free: &[Value],
    test: Value,
) -> Result<(), NoMemory>
    ensures { IfOk result (λ _. ops.new ≡ ops.old ++ map (choice (takes values.now.left.items values.now.free.items) (takes values.now.right.items right_free.now) test) values.now.chosen.items) }
{
    for value in values.chosen.as_slice() {
        ops.push(choice(values, right_free, test, *value))?;
    }
    Ok(())
}

fn choice(values: &Values, right_free: &[Value], test: Value, value: Value) -> Op
    ensures { result ≡ choice (takes values.now.left.items values.now.free.items) (takes values.now.right.items right_free.now) test value }
{
    let left = takes(value, values.left.as_slice(), values.free.as_slice());
    let right = takes(value, values.right.as_slice(), right_free);
    chosen(value, test, left, right)
}

fn chosen(value: Value, test: Value, left: Value, right: Value) -> Op
    ensures { result ≡ Select value test (Held left) (Held right) }
{
    Op::Select {
        to: value,
        test,
        left: Operand::Held(left),
        right: Operand::Held(right),
    }
}
