// The operations of a block under names, each tested and made in one turn.

ghost use Rattle.std.specs.Prelude.{◌≡◌, ◌++◌, if◌then◌else◌, IfOk, IfSome, None, Some, false, map, slice_index_or, true};
ghost use Rattle.vx_flow.specs.Effects.{is_unary, reads};
ghost use Rattle.vx_flow.specs.Operands.{held_by, with_value_in};
ghost use Rattle.vx_rename.specs.Renaming.{all_stand, is_there, op_if, renamed_exit, renamed_op, renamed_result, source_of, writes_alone};
ghost use Rattle.vx_rename.specs.Making.{name_in, OpMade, OpsMade, standing};

use crate::names::Name;
use crate::table::{Table, name_of};
use std::alloc::Global;
use vx_base::arithmetic::Code;
use vx_base::listed::Listed;
use vx_base::outcome::NoMemory;
use vx_flow::graph::{Exit, Op, Operand, Value};
use vx_flow::operands::{held_by, written_by};

fn renamed_operand(names: &[Value], operand: &Operand) -> Operand
    ensures { result ≡ with_value_in (name_in names.now) operand.now }
{
    match operand {
        Operand::Held(value) => Operand::Held(name_of(names, *value)),
        Operand::Number(number) => Operand::Number(*number),
        Operand::Stack => Operand::Stack,
    }
}

/// The operation with what it reads under its names, writing another value.
fn renamed_op(names: &[Value], to: Value, op: &Op) -> Op
    ensures { result ≡ renamed_op (name_in names.now) to op.now }
{
    match op {
        Op::Compute {
            code,
            left,
            right,
            ..
        } => Op::Compute {
            code: *code,
            to,
            left: renamed_operand(names, left),
            right: renamed_operand(names, right),
        },
        Op::Select {
            test,
            left,
            right,
            ..
        } => Op::Select {
            to,
            test: name_of(names, *test),
            left: renamed_operand(names, left),
            right: renamed_operand(names, right),
        },
        Op::Place { array, index, .. } => Op::Place {
            to,
            array: *array,
            index: renamed_operand(names, index),
        },
        Op::Load {
            array,
            place,
            dismissible,
            ..
        } => Op::Load {
            to,
            array: *array,
            place: renamed_operand(names, place),
            dismissible: *dismissible,
        },
        Op::Store { array, place, from } => Op::Store {
            array: *array,
            place: renamed_operand(names, place),
            from: renamed_operand(names, from),
        },
        Op::More { .. } => Op::More { to },
        Op::Input { .. } => Op::Input { to },
        Op::Text { number } => Op::Text { number: *number },
        Op::Decimal { from } => Op::Decimal {
            from: renamed_operand(names, from),
        },
        Op::Across { from, .. } => Op::Across {
            to,
            from: name_of(names, *from),
        },
        Op::Base { array, from, .. } => Op::Base {
            to,
            array: *array,
            from: *from,
        },
        Op::PlaceIn {
            array,
            base,
            index,
            ..
        } => Op::PlaceIn {
            to,
            array: *array,
            base: name_of(names, *base),
            index: renamed_operand(names, index),
        },
    }
}

fn source_by(code: Code, left: &Operand) -> Option<Value>
    ensures { result ≡ (if is_unary code then held_by left.now else None) }
{
    match code {
        Code::Mov => held_by(left),
        _ => None,
    }
}

/// The value that a move reads.
pub fn source_of(op: &Op) -> Option<Value>
    ensures { result ≡ source_of op.now }
{
    match op {
        Op::Compute { code, left, .. } => source_by(*code, left),
        _ => None,
    }
}

/// Whether a move reads a value that stands at this name.
fn is_there(table: &Table, to: Value, op: &Op) -> bool
    ensures { result ≡ is_there (standing table.now) to (source_of op.now) }
{
    match source_of(op) {
        Some(value) => table.is_at(Name {
            old: value,
            new: to,
        }),
        None => false,
    }
}

/// The operation under names; behind it stands what it writes.
fn named_op(table: &mut Table, to: Value, op: &Op) -> Option<Option<Op>>
    requires stand { all_stand (standing table.old) (reads op.now) ≡ true }
    requires apart { is_there (standing table.old) to (source_of op.now) ≡ false }
    ensures { IfSome result (λ made. OpMade (standing table.old) (Some to) op.now made (standing table.new)) }
{
    let made = renamed_op(table.names(), to, op);
    if table.put_if(written_by(op), to) {
        Some(Some(made))
    } else {
        None
    }
}

/// A move of what stands at the name already is not made; behind it stands there what it writes.
fn stays(table: &mut Table, to: Value, op: &Op) -> bool
    requires stand { all_stand (standing table.old) (reads op.now) ≡ true }
    requires there { is_there (standing table.old) to (source_of op.now) ≡ true }
    ensures { result ≡ true → OpMade (standing table.old) (Some to) op.now None (standing table.new) }
{
    table.place_if(written_by(op), to)
}

/// The operation under names, where it reads values that stand.
fn with_name(table: &mut Table, to: Value, op: &Op) -> Option<Option<Op>>
    ensures { IfSome result (λ made. OpMade (standing table.old) (Some to) op.now made (standing table.new)) }
{
    if !table.reads_stand(op) {
        return None;
    }
    if !is_there(table, to, op) {
        return named_op(table, to, op);
    }
    if stays(table, to, op) {
        Some(None)
    } else {
        None
    }
}

/// Whether an operation does nothing but write a value.
pub fn writes_alone(op: &Op) -> bool
    ensures { result ≡ writes_alone op.now }
{
    match op {
        Op::Store { .. } | Op::Input { .. } | Op::Text { .. } | Op::Decimal { .. } => false,
        _ => true,
    }
}

/// An operation is left out, where it does nothing but write; behind it what it writes does not stand.
fn is_left_out(table: &mut Table, op: &Op) -> bool
    ensures { result ≡ true → OpMade (standing table.old) None op.now None (standing table.new) }
{
    if writes_alone(op) {
        table.forget_if(written_by(op));
        true
    } else {
        false
    }
}

/// The operation under names, none where it has no name and is left out; none of both where it does not pass.
fn made_op(table: &mut Table, to: Option<Value>, op: &Op) -> Option<Option<Op>>
    ensures { IfSome result (λ made. OpMade (standing table.old) to op.now made (standing table.new)) }
{
    match to {
        Some(to) => with_name(table, to, op),
        None => {
            if is_left_out(table, op) {
                Some(None)
            } else {
                None
            }
        }
    }
}

fn push_if(ops: &mut Listed<Op>, op: Option<Op>) -> Result<(), NoMemory>
    ensures { IfOk result (λ _. ops.new ≡ ops.old ++ op_if op) }
{
    match op {
        Some(op) => ops.push(op)?,
        None => {}
    }
    Ok(())
}

/// The operations under names, one after the other.
pub fn made_ops(
    alloc: Global,
    table: &mut Table,
    written: &[Option<Value>],
    ops: &[Op],
) -> Result<Option<Listed<Op>>, NoMemory>
    ensures { IfOk result (λ found. IfSome found (λ made. OpsMade (standing table.old) written.now ops.now made (standing table.new))) }
{
    let mut made = Listed::new(alloc);
    for (place, op) in ops.iter().enumerate() {
        match made_op(table, name_at(written, place), op) {
            Some(new) => push_if(&mut made, new)?,
            None => return Ok(None),
        }
    }
    Ok(Some(made))
}

fn name_at(written: &[Option<Value>], place: usize) -> Option<Value>
    ensures { result ≡ slice_index_or written.now place None }
{
    match written.get(place) {
        Some(name) => *name,
        None => None,
    }
}

fn renamed_operands(
    alloc: Global,
    names: &[Value],
    operands: &[Operand],
) -> Result<Listed<Operand>, NoMemory>
    ensures { IfOk result (λ new. new ≡ map (with_value_in (name_in names.now)) operands.now) }
{
    let mut new = Listed::new(alloc);
    for operand in operands {
        new.push(renamed_operand(names, operand))?;
    }
    Ok(new)
}

fn renamed_result(to: Value, value: Option<Value>) -> Option<Value>
    ensures { result ≡ renamed_result to value }
{
    match value {
        Some(_) => Some(to),
        None => None,
    }
}

/// The exit with what it reads under its names; the result of a call is put at another value.
pub fn renamed_exit(
    alloc: Global,
    names: &[Value],
    to: Value,
    exit: &Exit,
) -> Result<Exit, NoMemory>
    ensures { IfOk result (λ new. new ≡ renamed_exit (name_in names.now) to exit.now) }
{
    match exit {
        Exit::Goto(next) => Ok(Exit::Goto(*next)),
        Exit::Split { test, yes, no } => Ok(Exit::Split {
            test: name_of(names, *test),
            yes: *yes,
            no: *no,
        }),
        Exit::Call {
            function,
            arguments,
            result,
            next,
        } => {
            let arguments = renamed_operands(alloc, names, arguments.as_slice())?;
            Ok(Exit::Call {
                function: *function,
                arguments,
                result: renamed_result(to, *result),
                next: *next,
            })
        }
        Exit::Return(operand) => Ok(Exit::Return(renamed_operand(names, operand))),
        Exit::Ends(trap) => Ok(Exit::Ends(*trap)),
    }
}
