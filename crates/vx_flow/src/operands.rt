// The values that an operation reads and the one that it writes, for passes that ask nothing else of it. specs/Operands.antt
// says the same, and what is added to a list is `reads` of specs/Effects.antt.

ghost use Rattle.std.specs.Prelude.{◌≡◌, ◌++◌, IfOk};
ghost use Rattle.vx_flow.specs.Effects.{dismissed, is_unary, reads, value_in};
ghost use Rattle.vx_flow.specs.Operands.{binds, first_operand, held_by, is_observable, read_by, reads_three, second_operand, value_list, values_read, with_two, written_by};
ghost use Rattle.vx_flow.specs.Sound.{is_value};

use crate::graph::{Op, Operand, Value};
use vx_base::arithmetic::Code;
use vx_base::listed::Listed;
use vx_base::outcome::NoMemory;

/// The values that an operation reads, in the order of its operands; the test of a choice is the first.
#[derive(Clone, Copy)]
pub struct Reads {
    pub first: Option<Value>,
    pub second: Option<Value>,
    pub third: Option<Value>,
}

/// The values of an operation that reads these.
pub fn reads_three(first: Option<Value>, second: Option<Value>, third: Option<Value>) -> Reads
    ensures { result ≡ reads_three first second third }
{
    Reads {
        first,
        second,
        third,
    }
}

/// The value that an operand holds; none where it is a number or the stack pointer.
pub fn held_by(operand: &Operand) -> Option<Value>
    ensures { result ≡ held_by operand.now }
{
    match operand {
        Operand::Held(value) => Some(*value),
        Operand::Number(_) | Operand::Stack => None,
    }
}

/// The values that an operation reads. The right operand of a move is not read.
pub fn read_by(op: &Op) -> Reads
    ensures { result ≡ read_by op.now }
{
    match op {
        Op::Compute {
            code,
            left,
            right,
            ..
        } => {
            if is_unary(*code) {
                reads_three(held_by(left), None, None)
            } else {
                reads_three(held_by(left), held_by(right), None)
            }
        }
        Op::Select {
            test,
            left,
            right,
            ..
        } => reads_three(Some(*test), held_by(left), held_by(right)),
        Op::Place { index: one, .. } | Op::Load { place: one, .. } | Op::Decimal { from: one } => {
            reads_three(held_by(one), None, None)
        }
        Op::PlaceIn { base, index, .. } => reads_three(held_by(index), Some(*base), None),
        Op::Store { place, from, .. } => reads_three(held_by(place), held_by(from), None),
        Op::Across { from, .. } => reads_three(Some(*from), None, None),
        Op::Base { .. } | Op::More { .. } | Op::Input { .. } | Op::Text { .. } => {
            reads_three(None, None, None)
        }
    }
}

fn is_unary(code: Code) -> bool
    ensures { result ≡ is_unary code }
{
    match code {
        Code::Mov => true,
        _ => false,
    }
}

/// The value that an operation writes, if it writes one.
pub fn written_by(op: &Op) -> Option<Value>
    ensures { result ≡ written_by op.now }
{
    match op {
        Op::Compute { to, .. }
        | Op::Select { to, .. }
        | Op::Place { to, .. }
        | Op::Base { to, .. }
        | Op::PlaceIn { to, .. }
        | Op::Load { to, .. }
        | Op::More { to }
        | Op::Input { to }
        | Op::Across { to, .. } => Some(*to),
        Op::Store { .. } | Op::Text { .. } | Op::Decimal { .. } => None,
    }
}

/// Adds a value, if there is one.
pub fn push_value(values: &mut Listed<Value>, value: Option<Value>) -> Result<(), NoMemory>
    ensures { IfOk result (λ _. values.new ≡ values.old ++ value_list value) }
{
    match value {
        Some(value) => values.push(value)?,
        None => {}
    }
    Ok(())
}

/// Adds the value that an operand holds, if it holds one.
#[tactic(auto, using(crate::proofs::OperandLaws::held_added))]
pub fn push_operand(values: &mut Listed<Value>, operand: &Operand) -> Result<(), NoMemory>
    ensures { IfOk result (λ _. values.new ≡ values.old ++ value_in operand.now) }
{
    push_value(values, held_by(operand))
}

/// Adds the values that an operation reads, in the order of its operands.
#[tactic(auto, using(crate::proofs::OperandLaws::reads_added))]
pub fn push_reads(values: &mut Listed<Value>, op: &Op) -> Result<(), NoMemory>
    ensures { IfOk result (λ _. values.new ≡ values.old ++ reads op.now) }
{
    let read = read_by(op);
    push_value(values, read.first)?;
    push_value(values, read.second)?;
    push_value(values, read.third)
}

/// The first operand that an operation reads; 0 where it reads none.
pub fn first_operand(op: &Op) -> Operand
    ensures { result ≡ first_operand op.now }
{
    match op {
        Op::Compute { left, .. } | Op::Select { left, .. } => *left,
        Op::Place { index, .. } | Op::PlaceIn { index, .. } => *index,
        Op::Load { place, .. } | Op::Store { place, .. } => *place,
        Op::Decimal { from } => *from,
        _ => Operand::Number(0),
    }
}

/// The second operand of an operation; 0 where it has none. That of a move is not read.
pub fn second_operand(op: &Op) -> Operand
    ensures { result ≡ second_operand op.now }
{
    match op {
        Op::Compute { right, .. } | Op::Select { right, .. } => *right,
        Op::Store { from, .. } => *from,
        _ => Operand::Number(0),
    }
}

/// The operation with others in place of the operands that it reads.
pub fn with_two(op: &Op, first: Operand, second: Operand) -> Op
    ensures { result ≡ with_two op.now first second }
{
    match *op {
        Op::Compute {
            code,
            to,
            right,
            ..
        } => Op::Compute {
            code,
            to,
            left: first,
            right: if is_unary(code) { right } else { second },
        },
        Op::Select { to, test, .. } => Op::Select {
            to,
            test,
            left: first,
            right: second,
        },
        Op::Place { to, array, .. } => Op::Place {
            to,
            array,
            index: first,
        },
        Op::PlaceIn {
            to,
            array,
            base,
            ..
        } => Op::PlaceIn {
            to,
            array,
            base,
            index: first,
        },
        Op::Load {
            to,
            array,
            dismissible,
            ..
        } => Op::Load {
            to,
            array,
            place: first,
            dismissible,
        },
        Op::Store { array, .. } => Op::Store {
            array,
            place: first,
            from: second,
        },
        Op::Decimal { .. } => Op::Decimal { from: first },
        _ => *op,
    }
}

/// The operation, dismissible if it is a load.
pub fn dismissed(op: Op) -> Op
    ensures { result ≡ dismissed op }
{
    match op {
        Op::Load {
            to,
            array,
            place,
            ..
        } => Op::Load {
            to,
            array,
            place,
            dismissible: true,
        },
        _ => op,
    }
}

/// Whether an operation reads or writes the streams of the program, so that its order among others can be seen.
pub fn is_observable(op: &Op) -> bool
    ensures { result ≡ is_observable op.now }
{
    match op {
        Op::More { .. } | Op::Input { .. } | Op::Text { .. } | Op::Decimal { .. } => true,
        _ => false,
    }
}

/// The value that an operation writes on cluster 0 alone, if any: a choice's, whether input is left, the number read.
pub fn binds(op: &Op) -> Option<Value>
    ensures { result ≡ binds op.now }
{
    match op {
        Op::Select { to, .. } => Some(*to),
        _ => {
            if is_observable(op) {
                written_by(op)
            } else {
                None
            }
        }
    }
}

/// Whether an operand holds the value.
pub fn is_value(value: Value, operand: &Operand) -> bool
    ensures { result ≡ is_value value operand.now }
{
    match operand {
        Operand::Held(held) => *held == value,
        _ => false,
    }
}
