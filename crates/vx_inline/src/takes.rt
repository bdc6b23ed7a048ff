// What value of the caller each value of the callee takes, as a table.

ghost use Rattle.std.specs.Prelude.{◌≡◌, ℕ, IfOk, slice_get};
ghost use Rattle.vx_flow.specs.declared.graph.Bank.{Bank};
ghost use Rattle.vx_flow.specs.Operands.{with_value_in, with_values};
ghost use Rattle.vx_flow.specs.Rows.{Rising};
ghost use Rattle.vx_inline.specs.Inlined.{bank_of, beside};
ghost use Rattle.vx_inline.specs.Taking.{Tells, taken_by, value_at};
ghost use Rattle.vx_inline.specs.Values.{of_bank};

use crate::by_bank::ByBank;
use std::alloc::Global;
use vx_base::outcome::NoMemory;
use vx_base::sizes::number_of;
use vx_flow::graph::{Bank, Op, Operand, Value};

/// For each value of the callee the one that it takes: the named ones of each bank, ascending, take the free ones, ascending, and
/// the others themselves.
#[tactic(auto, using(crate::proofs::Tables::told_more))]
pub(crate) fn takes(
    alloc: Global,
    banks: &[Bank],
    named: &ByBank,
    free: &ByBank,
) -> Result<Vec<Value>, NoMemory>
    requires { (bank : Bank) → Rising (of_bank named.now bank) }
    ensures { IfOk result (λ to. Tells banks.now named.now free.now to.items) }
{
    let count = number_of(banks.len())?;
    let mut to = Vec::new(alloc);
    for value in 0..count {
        to.push(taken(banks, named, free, value))?;
    }
    Ok(to)
}

fn taken(banks: &[Bank], named: &ByBank, free: &ByBank, value: Value) -> Value
    requires { (bank : Bank) → Rising (of_bank named.now bank) }
    ensures { result ≡ taken_by banks.now named.now free.now value }
{
    let bank = bank_at(banks, value);
    beside(named.of(bank), free.of(bank), value)
}

fn bank_at(banks: &[Bank], value: Value) -> Bank
    ensures { result ≡ bank_of (slice_get banks.now value) }
{
    match banks.get(value as usize) {
        Some(bank) => *bank,
        None => Bank::General,
    }
}

/// What stands beside a value in two lists; the value itself where nothing does.
#[tactic(auto, using(crate::proofs::Tables::beside_some, crate::proofs::Tables::beside_past, crate::proofs::Tables::beside_missed))]
fn beside(named: &[Value], free: &[Value], value: Value) -> Value
    requires { Rising named.now }
    ensures { result ≡ beside named.now free.now value }
{
    match named.binary_search(&value) {
        Ok(place) => match free.get(place) {
            Some(taken) => *taken,
            None => value,
        },
        Err(_) => value,
    }
}

/// What a value takes, by the table; itself where it has none.
pub(crate) fn value_at(to: &[Value], value: Value) -> Value
    ensures { result ≡ value_at to.now value }
{
    match to.get(value as usize) {
        Some(taken) => *taken,
        None => value,
    }
}

/// An operand with what its value takes.
pub(crate) fn renamed_operand(to: &[Value], operand: &Operand) -> Operand
    ensures { result ≡ with_value_in (value_at to.now) operand.now }
{
    match operand {
        Operand::Held(value) => Operand::Held(value_at(to, *value)),
        Operand::Number(number) => Operand::Number(*number),
        Operand::Stack => Operand::Stack,
    }
}

/// An operation with what its values take.
pub(crate) fn renamed(table: &[Value], op: &Op) -> Op
    ensures { result ≡ with_values (value_at table.now) op.now }
{
    match op {
        Op::Compute {
            code,
            to,
            left,
            right,
        } => Op::Compute {
            code: *code,
            to: value_at(table, *to),
            left: renamed_operand(table, left),
            right: renamed_operand(table, right),
        },
        Op::Select {
            to,
            test,
            left,
            right,
        } => Op::Select {
            to: value_at(table, *to),
            test: value_at(table, *test),
            left: renamed_operand(table, left),
            right: renamed_operand(table, right),
        },
        Op::Place { to, array, index } => Op::Place {
            to: value_at(table, *to),
            array: *array,
            index: renamed_operand(table, index),
        },
        Op::Load {
            to,
            array,
            place,
            dismissible,
        } => Op::Load {
            to: value_at(table, *to),
            array: *array,
            place: renamed_operand(table, place),
            dismissible: *dismissible,
        },
        Op::Store { array, place, from } => Op::Store {
            array: *array,
            place: renamed_operand(table, place),
            from: renamed_operand(table, from),
        },
        Op::More { to } => Op::More {
            to: value_at(table, *to),
        },
        Op::Input { to } => Op::Input {
            to: value_at(table, *to),
        },
        Op::Text { number } => Op::Text { number: *number },
        Op::Decimal { from } => Op::Decimal {
            from: renamed_operand(table, from),
        },
        Op::Across { to, from } => Op::Across {
            to: value_at(table, *to),
            from: value_at(table, *from),
        },
        Op::Base { to, array, from } => Op::Base {
            to: value_at(table, *to),
            array: *array,
            from: *from,
        },
        Op::PlaceIn {
            to,
            array,
            base,
            index,
        } => Op::PlaceIn {
            to: value_at(table, *to),
            array: *array,
            base: value_at(table, *base),
            index: renamed_operand(table, index),
        },
    }
}
