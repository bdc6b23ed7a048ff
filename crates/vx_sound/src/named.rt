// The tests of an operation by itself: whether what it names is there and of its kind, and whether it leaves a value to the places
// of one array. The other files name only places, bases, loads, stores and texts. The exits are tested for what they name. Nothing here
// takes memory.

ghost use Rattle.std.specs.Prelude.{◌≡◌, ◌==◌};
ghost use Rattle.std.specs.List.{list_all};
ghost use Rattle.vx_flow.specs.Sound.{is_branch, is_general, is_general_or_none, is_operand, is_place_in, is_right, is_right_value, is_sound_exit, is_sound_operation, is_written, is_zero, keeps_place};

use vx_base::arithmetic::Code;
use vx_flow::graph::{ArrayId, Bank, Exit, Op, Operand, Value};
use vx_flow::operands::is_value;

/// Whether these are general values that are there.
pub fn are_general(banks: &[Bank], values: &[Value]) -> bool
    ensures { result ≡ list_all (is_general banks.now) values.now }
{
    for value in values {
        if !is_general(banks, *value) {
            return false;
        }
    }
    true
}

/// Whether what an operation names is there and of its kind.
pub fn is_sound_operation(banks: &[Bank], arrays: usize, op: &Op) -> bool
    ensures { result ≡ is_sound_operation banks.now arrays op.now }
{
    match op {
        Op::Compute {
            code,
            to,
            left,
            right,
        } => {
            is_written(banks, *code, *to)
                && is_operand(banks, left)
                && is_right(banks, *code, right)
        }
        Op::Select {
            to,
            test,
            left,
            right,
        } => {
            is_general(banks, *to)
                && is_branch(banks, *test)
                && is_operand(banks, left)
                && is_operand(banks, right)
        }
        Op::Place { to, array, index } => {
            is_general(banks, *to) && (*array as usize) < arrays && is_operand(banks, index)
        }
        Op::Load {
            to,
            array,
            place,
            ..
        } => is_general(banks, *to) && (*array as usize) < arrays && is_operand(banks, place),
        Op::Store { array, place, from } => {
            (*array as usize) < arrays && is_operand(banks, place) && is_operand(banks, from)
        }
        Op::More { to } => is_general(banks, *to),
        Op::Input { to } => is_general(banks, *to),
        Op::Text { .. } => true,
        Op::Decimal { from } => is_operand(banks, from),
        Op::Across { .. } => false,
        Op::Base { to, array, .. } => is_general(banks, *to) && (*array as usize) < arrays,
        Op::PlaceIn {
            to,
            array,
            base,
            index,
        } => {
            is_general(banks, *to)
                && (*array as usize) < arrays
                && is_general(banks, *base)
                && is_operand(banks, index)
        }
    }
}

/// Whether the operation writes the value only as a place of the array, and reads it only as the place of a load or store
/// of the array.
pub fn keeps_place(value: Value, array: u32, op: &Op) -> bool
    ensures { result ≡ keeps_place value array op.now }
{
    match op {
        Op::Compute {
            code,
            to,
            left,
            right,
        } => *to != value && !is_value(value, left) && !is_right_value(value, *code, right),
        Op::Select {
            to,
            test,
            left,
            right,
        } => *to != value && *test != value && !is_value(value, left) && !is_value(value, right),
        Op::Place {
            to,
            array: other,
            index,
        } => (*to != value || *other == array) && !is_value(value, index),
        Op::Load {
            to,
            array: other,
            place,
            ..
        } => *to != value && (!is_value(value, place) || *other == array),
        Op::Store {
            array: other,
            place,
            from,
        } => (!is_value(value, place) || *other == array) && !is_value(value, from),
        Op::More { to } => *to != value,
        Op::Input { to } => *to != value,
        Op::Text { .. } => true,
        Op::Decimal { from } => !is_value(value, from),
        Op::Across { to, from } => *to != value && *from != value,
        Op::Base { to, .. } => *to != value,
        Op::PlaceIn {
            to,
            array: other,
            base,
            index,
        } => { (*to != value || *other == array) && !is_value(value, index) && *base != value }
    }
}

/// Whether what an exit names is there and of its kind.
pub fn is_sound_exit(banks: &[Bank], blocks: usize, exit: &Exit) -> bool
    ensures { result ≡ is_sound_exit banks.now blocks exit.now }
{
    match exit {
        Exit::Goto(to) => (*to as usize) < blocks,
        Exit::Split { test, yes, no } => {
            is_branch(banks, *test) && (*yes as usize) < blocks && (*no as usize) < blocks
        }
        Exit::Call {
            arguments,
            result,
            next,
            ..
        } => {
            are_operands(banks, arguments.as_slice())
                && is_general_or_none(banks, *result)
                && (*next as usize) < blocks
        }
        Exit::Return(operand) => is_operand(banks, operand),
        Exit::Ends(_) => true,
    }
}

fn are_operands(banks: &[Bank], operands: &[Operand]) -> bool
    ensures { result ≡ list_all (is_operand banks.now) operands.now }
{
    for operand in operands {
        if !is_operand(banks, operand) {
            return false;
        }
    }
    true
}

/// A number, or a general value that is there.
fn is_operand(banks: &[Bank], operand: &Operand) -> bool
    ensures { result ≡ is_operand banks.now operand.now }
{
    match operand {
        Operand::Held(value) => is_general(banks, *value),
        Operand::Number(_) => true,
        Operand::Stack => false,
    }
}

/// What stands as the right operand of a move is no operand.
fn is_right(banks: &[Bank], code: Code, operand: &Operand) -> bool
    ensures { result ≡ is_right banks.now code operand.now }
{
    match code {
        Code::Mov => is_zero(operand),
        _ => is_operand(banks, operand),
    }
}

pub(crate) fn is_zero(operand: &Operand) -> bool
    ensures { result ≡ is_zero operand.now }
{
    match operand {
        Operand::Number(number) => *number == 0,
        _ => false,
    }
}

/// A compare to a branch value writes one, every other code a general value.
fn is_written(banks: &[Bank], code: Code, value: Value) -> bool
    ensures { result ≡ is_written banks.now code value }
{
    match code {
        Code::ToBranch(_) => is_branch(banks, value),
        _ => is_general(banks, value),
    }
}

/// What stands as the right operand of a move is not read.
pub(crate) fn is_right_value(value: Value, code: Code, operand: &Operand) -> bool
    ensures { result ≡ is_right_value value code operand.now }
{
    match code {
        Code::Mov => false,
        _ => is_value(value, operand),
    }
}

fn is_general_or_none(banks: &[Bank], value: Option<Value>) -> bool
    ensures { result ≡ is_general_or_none banks.now value }
{
    match value {
        Some(value) => is_general(banks, value),
        None => true,
    }
}

fn is_general(banks: &[Bank], value: Value) -> bool
    ensures { result ≡ is_general banks.now value }
{
    match banks.get(value as usize) {
        Some(Bank::General) => true,
        Some(Bank::Branch) => false,
        None => false,
    }
}

fn is_branch(banks: &[Bank], value: Value) -> bool
    ensures { result ≡ is_branch banks.now value }
{
    match banks.get(value as usize) {
        Some(Bank::Branch) => true,
        Some(Bank::General) => false,
        None => false,
    }
}

/// Whether the operation is a place of the array, and writes it into the value.
pub fn is_place_in(value: Value, array: u32, op: &Op) -> bool
    ensures { result ≡ is_place_in value array op.now }
{
    match op {
        Op::Place {
            to,
            array: other,
            ..
        } => *to == value && *other == array,
        Op::PlaceIn {
            to,
            array: other,
            ..
        } => *to == value && *other == array,
        _ => false,
    }
}
