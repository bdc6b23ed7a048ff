// Values of a graph by their bank.

ghost use Rattle.std.specs.Prelude.{◌≡◌, ◌++◌, ◌∷◌, [], if◌then◌else◌, true, false, IfOk, Some, length, slice_get, take};
ghost use Rattle.std.specs.List.{filter};
ghost use Rattle.vx_flow.specs.declared.graph.Bank.{Bank};
ghost use Rattle.vx_flow.specs.Sound.{is_bank};
ghost use Rattle.vx_flow.specs.Walk.{numbers};
ghost use Rattle.vx_inline.specs.Inlined.{named};
ghost use Rattle.vx_inline.specs.Values.{is_listed, of_bank};

use crate::marks::{is_marked, marks_of};
use crate::names::names;
use std::alloc::Global;
use vx_base::listed::Listed;
use vx_base::outcome::NoMemory;
use vx_base::sizes::number_of;
use vx_flow::graph::{Bank, Graph, Value};

/// Values by their bank, each list ascending.
#[derive(Drop)]
pub struct ByBank {
    pub general: Listed<Value>,
    pub branch: Listed<Value>,
}

impl ByBank {
    /// Those of a bank.
    pub(crate) fn of(&self, bank: Bank) -> &[Value]
        ensures { result.now ≡ of_bank self.now bank }
    {
        match bank {
            Bank::General => self.general.as_slice(),
            Bank::Branch => self.branch.as_slice(),
        }
    }
}

/// The values that a graph names.
#[tactic(auto, using(crate::proofs::Named::named_by))]
pub(crate) fn named(alloc: Global, graph: &Graph) -> Result<ByBank, NoMemory>
    ensures { IfOk result (λ values. (bank : Bank) → of_bank values bank ≡ named graph.now bank) }
{
    let names = names(alloc, graph)?;
    let marks = marks_of(alloc, graph.banks.len(), names.as_slice())?;
    marked_by_bank(alloc, graph.banks.as_slice(), marks.as_slice())
}

/// The values that are marked.
#[tactic(auto, using(crate::proofs::Named::both_listed))]
fn marked_by_bank(alloc: Global, banks: &[Bank], marks: &[bool]) -> Result<ByBank, NoMemory>
    ensures { IfOk result (λ values. (bank : Bank) → of_bank values bank ≡ filter (is_listed banks.now marks.now true bank) (numbers 0 (length banks.now))) }
{
    let general = listed(alloc, banks, marks, Bank::General)?;
    let branch = listed(alloc, banks, marks, Bank::Branch)?;
    Ok(ByBank { general, branch })
}

#[tactic(auto, using(crate::proofs::Named::next_in, crate::proofs::Named::next_out))]
fn listed(
    alloc: Global,
    banks: &[Bank],
    marks: &[bool],
    bank: Bank,
) -> Result<Listed<Value>, NoMemory>
    ensures { IfOk result (λ values. values ≡ filter (is_listed banks.now marks.now true bank) (numbers 0 (length banks.now))) }
{
    let count = number_of(banks.len())?;
    let mut values = Listed::new(alloc);
    for value in 0..count {
        if is_listed(banks, marks, true, bank, value) {
            values.push(value)?;
        }
    }
    Ok(values)
}

/// Of each bank the first values that are not marked, at most as many as there are others.
#[tactic(auto, using(crate::proofs::Named::both_first))]
pub(crate) fn first_unmarked(
    alloc: Global,
    banks: &[Bank],
    marks: &[bool],
    others: &ByBank,
) -> Result<ByBank, NoMemory>
    ensures { IfOk result (λ values. (bank : Bank) → of_bank values bank ≡ take (length (of_bank others.now bank)) (filter (is_listed banks.now marks.now false bank) (numbers 0 (length banks.now)))) }
{
    let general = first_of(alloc, banks, marks, Bank::General, others.general.len())?;
    let branch = first_of(alloc, banks, marks, Bank::Branch, others.branch.len())?;
    Ok(ByBank { general, branch })
}

fn first_of(
    alloc: Global,
    banks: &[Bank],
    marks: &[bool],
    bank: Bank,
    most: usize,
) -> Result<Listed<Value>, NoMemory>
    ensures { IfOk result (λ values. values ≡ take most (filter (is_listed banks.now marks.now false bank) (numbers 0 (length banks.now)))) }
{
    let count = number_of(banks.len())?;
    let mut values = Listed::new(alloc);
    for value in 0..count {
        if values.len() >= most {
            return Ok(values);
        }
        push_unmarked(&mut values, banks, marks, bank, value)?;
    }
    Ok(values)
}

fn push_unmarked(
    values: &mut Listed<Value>,
    banks: &[Bank],
    marks: &[bool],
    bank: Bank,
    value: Value,
) -> Result<(), NoMemory>
    ensures { IfOk result (λ _. values.new ≡ values.old ++ (if is_listed banks.now marks.now false bank value then value ∷ [] else [])) }
{
    if is_listed(banks, marks, false, bank, value) {
        values.push(value)?;
    }
    Ok(())
}

fn is_listed(banks: &[Bank], marks: &[bool], marked: bool, bank: Bank, value: Value) -> bool
    ensures { result ≡ is_listed banks.now marks.now marked bank value }
{
    is_in_bank(banks, bank, value)
        && if marked {
            is_marked(marks, value)
        } else {
            !is_marked(marks, value)
        }
}

fn is_in_bank(banks: &[Bank], bank: Bank, value: Value) -> bool
    ensures { result ≡ is_bank bank (slice_get banks.now value) }
{
    match banks.get(value as usize) {
        Some(own) => is_same(bank, *own),
        None => false,
    }
}

fn is_same(bank: Bank, own: Bank) -> bool
    ensures { result ≡ is_bank bank (Some own) }
{
    match (bank, own) {
        (Bank::General, Bank::General) => true,
        (Bank::Branch, Bank::Branch) => true,
        _ => false,
    }
}
