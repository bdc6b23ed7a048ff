// Writes that may be in flight when a word is issued, in lists, and what of them is left behind the word.

ghost use Rattle.std.specs.Prelude.{◌≡◌, ◌<◌, ◌∷◌, [], IfOk, max};
ghost use Rattle.vx_isa.specs.Machine.{cycles_of};
ghost use Rattle.vx_check.specs.InFlight.{Carries, Joins, Leaves, Makes, left_of};

use std::alloc::Global;
use vx_base::listed::Listed;
use vx_base::outcome::NoMemory;
use vx_isa::operation::{Operation, Register};
use vx_isa::program::Word;
use vx_machine::Machine;

/// A write to a register that may still need so many cycles.
#[derive(Clone, Copy)]
pub struct InFlight {
    /// The register.
    pub to: Register,
    /// The most cycles until it has landed, at least 1.
    pub left: u32,
}

/// The most cycles that a write to the register in the list needs; 0 where there is none.
pub(crate) fn left_of(list: &[InFlight], register: &Register) -> u32
    ensures { result ≡ left_of list.now register.now }
{
    let mut most = 0;
    'writes: for write in list {
        if write.to.is_same(register) && write.left > most {
            most = write.left;
        }
    }
    most
}

/// Puts a write at the end of a list.
fn put(list: &mut Listed<InFlight>, write: InFlight) -> Result<(), NoMemory>
    ensures { IfOk result (λ _. Joins list.old (write ∷ []) list.new) }
{
    list.push(write)?;
    Ok(())
}

/// Puts a write at the end of a list, unless the list has one to its register that needs as many cycles.
#[tactic(auto, using(crate::proofs::Entries::joins_skip))]
fn add(list: &mut Listed<InFlight>, write: &InFlight) -> Result<(), NoMemory>
    ensures { IfOk result (λ _. Joins list.old (write.now ∷ []) list.new) }
{
    if left_of(list.as_slice(), &write.to) < write.left {
        put(list, *write)
    } else {
        Ok(())
    }
}

/// The same of each of some writes.
#[tactic(auto, using(crate::proofs::Entries::joins_then, crate::proofs::Entries::joins_none))]
pub(crate) fn add_all(list: &mut Listed<InFlight>, writes: &[InFlight]) -> Result<(), NoMemory>
    ensures { IfOk result (λ _. Joins list.old writes.now list.new) }
{
    match writes.split_first() {
        Some((first, rest)) => {
            add(list, first)?;
            add_all(list, rest)
        }
        None => Ok(()),
    }
}

/// Puts what of a write is left when so many cycles have passed.
#[tactic(auto, using(crate::proofs::Entries::carries_skip))]
fn carry(list: &mut Listed<InFlight>, write: InFlight, cycles: u32) -> Result<(), NoMemory>
    ensures { IfOk result (λ _. Carries cycles (write ∷ []) list.old list.new) }
{
    if write.left <= cycles {
        return Ok(());
    }
    let left = write.left - cycles;
    put(list, InFlight { to: write.to, left })
}

#[tactic(auto, using(crate::proofs::Entries::carries_then, crate::proofs::Entries::carries_none))]
fn carry_all(list: &mut Listed<InFlight>, row: &[InFlight], cycles: u32) -> Result<(), NoMemory>
    ensures { IfOk result (λ _. Carries cycles row.now list.old list.new) }
{
    match row.split_first() {
        Some((first, rest)) => {
            carry(list, *first, cycles)?;
            carry_all(list, rest, cycles)
        }
        None => Ok(()),
    }
}

/// Puts what of the write of an operation is left when so many cycles have passed. The link that a call writes is there at once, and
/// register 0 keeps nothing.
#[tactic(auto, using(crate::proofs::Entries::makes_zero, crate::proofs::Entries::makes_nothing))]
fn make(
    list: &mut Listed<InFlight>,
    machine: &Machine,
    op: &Operation,
    cycles: u32,
) -> Result<(), NoMemory>
    ensures { IfOk result (λ _. Makes machine.now cycles (op.now ∷ []) list.old list.new) }
{
    match op.destination() {
        Some(to) => {
            if to.is_zero() {
                return Ok(());
            }
            let left = machine.latency(op);
            carry(list, InFlight { to, left }, cycles)
        }
        None => Ok(()),
    }
}

#[tactic(auto, using(crate::proofs::Entries::makes_then, crate::proofs::Entries::makes_none))]
fn make_all(
    list: &mut Listed<InFlight>,
    machine: &Machine,
    ops: &[Operation],
    cycles: u32,
) -> Result<(), NoMemory>
    ensures { IfOk result (λ _. Makes machine.now cycles ops.now list.old list.new) }
{
    match ops.split_first() {
        Some((first, rest)) => {
            make(list, machine, first, cycles)?;
            make_all(list, machine, rest, cycles)
        }
        None => Ok(()),
    }
}

/// How many cycles a word takes.
fn cycles_of(word: &Word) -> u32
    ensures { result ≡ cycles_of word.now }
{
    word.idle.max(1)
}

/// What may be in flight behind a word at which the writes of a row may be.
#[tactic(auto, using(crate::proofs::Entries::leaves))]
pub(crate) fn leaving(
    alloc: Global,
    machine: &Machine,
    word: &Word,
    row: &[InFlight],
) -> Result<Listed<InFlight>, NoMemory>
    ensures { IfOk result (λ out. Leaves machine.now word.now row.now out) }
{
    let cycles = cycles_of(word);
    let mut out = Listed::new(alloc);
    carry_all(&mut out, row, cycles)?;
    make_all(&mut out, machine, word.ops.as_slice(), cycles)?;
    Ok(out)
}
