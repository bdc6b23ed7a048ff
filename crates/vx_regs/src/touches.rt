// The values that words read and write, in the order of their items.

ghost use Rattle.std.specs.Prelude.{◌≡◌, ◌++◌, IfOk};
ghost use Rattle.std.specs.List.{flat_map};
ghost use Rattle.vx_flow.specs.Effects.{value_in, writes};
ghost use Rattle.vx_mixed.specs.LaidSettled.{item_reads, item_writes, laid_reads, laid_writes};
ghost use Rattle.vx_regs.specs.Intervals.{result_of, word_reads, word_writes};

use std::alloc::Global;
use vx_base::listed::Listed;
use vx_base::outcome::NoMemory;
use vx_flow::graph::{Op, Operand, Value};
use vx_flow::operands::{push_operand, push_reads, push_value};
use vx_mixed::layout::{Laid, VirtualWord};

/// The value that an operation writes, if any.
#[tactic(auto, using(vx_flow::proofs::OperandLaws::writes_listed))]
pub fn written(op: &Op) -> Option<Value>
    ensures { result_of result ≡ writes op.now }
{
    vx_flow::operands::written_by(op)
}

fn push_item_reads(values: &mut Listed<Value>, item: &Laid) -> Result<(), NoMemory>
    ensures { IfOk result (λ _. values.new ≡ values.old ++ item_reads item.now) }
{
    match item {
        Laid::Plain { op, .. } => push_reads(values, op),
        Laid::Split { test, .. } => push_value(values, Some(*test)),
    }
}

fn push_item_writes(values: &mut Listed<Value>, item: &Laid) -> Result<(), NoMemory>
    ensures { IfOk result (λ _. values.new ≡ values.old ++ item_writes item.now) }
{
    match item {
        Laid::Plain { op, .. } => push_value(values, written(op)),
        Laid::Split { .. } => Ok(()),
    }
}

fn push_laid_reads(values: &mut Listed<Value>, items: &[Laid]) -> Result<(), NoMemory>
    ensures { IfOk result (λ _. values.new ≡ values.old ++ laid_reads items.now) }
{
    match items.split_first() {
        None => Ok(()),
        Some((item, rest)) => {
            push_item_reads(values, item)?;
            push_laid_reads(values, rest)
        }
    }
}

fn push_laid_writes(values: &mut Listed<Value>, items: &[Laid]) -> Result<(), NoMemory>
    ensures { IfOk result (λ _. values.new ≡ values.old ++ laid_writes items.now) }
{
    match items.split_first() {
        None => Ok(()),
        Some((item, rest)) => {
            push_item_writes(values, item)?;
            push_laid_writes(values, rest)
        }
    }
}

/// The values that a word reads, in the order of its items.
pub fn read_by(alloc: Global, items: &[Laid]) -> Result<Listed<Value>, NoMemory>
    ensures { IfOk result (λ values. values ≡ laid_reads items.now) }
{
    let mut values = Listed::new(alloc);
    push_laid_reads(&mut values, items)?;
    Ok(values)
}

/// The values that a word writes, in the order of its items.
pub fn written_by(alloc: Global, items: &[Laid]) -> Result<Listed<Value>, NoMemory>
    ensures { IfOk result (λ values. values ≡ laid_writes items.now) }
{
    let mut values = Listed::new(alloc);
    push_laid_writes(&mut values, items)?;
    Ok(values)
}

fn push_operands(values: &mut Listed<Value>, operands: &[Operand]) -> Result<(), NoMemory>
    ensures { IfOk result (λ _. values.new ≡ values.old ++ flat_map value_in operands.now) }
{
    match operands.split_first() {
        None => Ok(()),
        Some((operand, rest)) => {
            push_operand(values, operand)?;
            push_operands(values, rest)
        }
    }
}

/// The values that a word of a layout reads.
pub fn word_reads(alloc: Global, word: &VirtualWord) -> Result<Listed<Value>, NoMemory>
    ensures { IfOk result (λ values. values ≡ word_reads word.now) }
{
    let mut values = Listed::new(alloc);
    let pushed = match word {
        VirtualWord::Planned { items, .. } => push_laid_reads(&mut values, items.as_slice()),
        VirtualWord::Choice { test, .. } => push_value(&mut values, Some(*test)),
        VirtualWord::Call { arguments, .. } => push_operands(&mut values, arguments.as_slice()),
        VirtualWord::Return(operand) => push_operand(&mut values, operand),
        VirtualWord::Drain(_) | VirtualWord::Transfer(_) | VirtualWord::Ends(_) => Ok(()),
    };
    pushed?;
    Ok(values)
}

/// The values that a word of a layout writes.
pub fn word_writes(alloc: Global, word: &VirtualWord) -> Result<Listed<Value>, NoMemory>
    ensures { IfOk result (λ values. values ≡ word_writes word.now) }
{
    let mut values = Listed::new(alloc);
    match word {
        VirtualWord::Planned { items, .. } => return written_by(alloc, items.as_slice()),
        VirtualWord::Call {
            result: Some(value),
            ..
        } => values.push(*value)?,
        _ => {}
    }
    Ok(values)
}
