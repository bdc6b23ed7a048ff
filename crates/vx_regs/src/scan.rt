// The scan of spans from left to right, file after file: each gets a register that is free where it begins. Where none is, the
// one that ends last, then the one of the lowest value, goes to a slot. The clause of `scan` carries the promise.

ghost use Rattle.std.specs.Prelude.{◌≡◌, ◌<◌, ◌+◌, ℕ, Some, IfOk, OnOk, MatchOption, length, slice_set};
ghost use Rattle.vx_regs.specs.Held.{IsLast, goes_on, later, outlasts};
ghost use Rattle.vx_regs.specs.Mapped.{allocatable, first_of};
ghost use Rattle.vx_regs.specs.Spans.{AllHeld, FreeFrom, Gives, Holds, Scannable, Scanned, TurnsTo, bank_of_file};
ghost use Rattle.vx_regs.specs.declared.map.Kept.TheVariants.{InRegister};
ghost use Rattle.vx_regs.specs.declared.spans.Span.{Span as ASpan};

use crate::map::Kept;
use crate::spans::Span;
use std::alloc::Global;
use vx_base::outcome::NoMemory;
use vx_base::sizes::{number_of, sum};
use vx_flow::graph::Value;
use vx_machine::Machine;

/// The first allocatable register of a file.
fn first_register(machine: &Machine, file: u32) -> u32
    ensures { result ≡ first_of machine.now (bank_of_file file) }
{
    machine.keeps_ranges();
    if file == 0 {
        machine.issue()
    } else {
        3 + 2 * machine.issue()
    }
}

/// How many allocatable registers a file has.
fn registers_of(machine: &Machine, file: u32) -> u32
    ensures { result ≡ allocatable machine.now (bank_of_file file) }
{
    let first = first_register(machine, file);
    if file == 0 {
        machine.branch_registers().saturating_sub(first)
    } else {
        machine.registers().saturating_sub(first)
    }
}

/// So many free registers.
fn free_registers(alloc: Global, count: u32) -> Result<Vec<Option<Span>>, NoMemory>
    ensures count { IfOk result (λ held. length held.items ≡ count) }
    ensures free { IfOk result (λ held. (i : ℕ) (s : ASpan) → Holds held.items i s → ⊥) }
{
    let mut held = Vec::new(alloc);
    'registers: for _ in 0..count {
        held.push(None)?;
    }
    Ok(held)
}

/// The holders of the registers of a file, where these are those of another file or of the same.
fn turned(
    alloc: Global,
    machine: &Machine,
    number: u32,
    file: u32,
    held: Vec<Option<Span>>,
) -> Result<Vec<Option<Span>>, NoMemory>
    ensures { IfOk result (λ new. TurnsTo machine.now number file held.items new.items) }
{
    if number == file {
        return Ok(held);
    }
    free_registers(alloc, registers_of(machine, number))
}

/// Whether the holder of a register goes on to a place.
fn goes_on(holder: &Option<Span>, place: u32) -> bool
    ensures { result ≡ goes_on holder.now place }
{
    match holder {
        None => false,
        Some(span) => place <= span.to,
    }
}

/// The first register that is free from a place on.
#[tactic(auto, using(crate::proofs::Holding::found_free, crate::proofs::Holding::none_so_far, crate::proofs::Holding::one_more, crate::proofs::Holding::all_held))]
fn free_at(held: &[Option<Span>], place: u32) -> Option<usize>
    ensures { MatchOption result (AllHeld held.now place) (λ i. FreeFrom held.now place i) }
{
    let mut register = 0;
    'find: while register < held.len() {
        if !goes_on(&held[register], place) {
            return Some(register);
        }
        register += 1;
    }
    None
}

/// Whether one span ends behind another, or with it and its value is the lower one.
fn outlasts(one: &Span, other: &Span) -> bool
    ensures { result ≡ outlasts one.now other.now }
{
    other.to < one.to || other.to == one.to && one.value < other.value
}

/// A span that outlasts others, and the register that it holds; none where it is the new one.
#[derive(Clone, Copy)]
struct Last {
    register: Option<usize>,
    span: Span,
}

/// The later one of the last so far and the holder of a register.
fn later(last: Last, register: usize, holder: &Option<Span>) -> Last
    ensures { result ≡ later last register holder.now }
{
    match holder {
        None => last,
        Some(span) => {
            if outlasts(span, &last.span) {
                Last {
                    register: Some(register),
                    span: *span,
                }
            } else {
                last
            }
        }
    }
}

/// The one of the holders and a new span that outlasts the others.
#[tactic(auto, using(crate::proofs::Holding::last_first, crate::proofs::Holding::last_next))]
fn last_of(held: &[Option<Span>], span: Span) -> Last
    ensures { IsLast held.now span (length held.now) result }
{
    let mut last = Last {
        register: None,
        span,
    };
    let mut register = 0;
    'pass: while register < held.len() {
        last = later(last, register, &held[register]);
        register += 1;
    }
    last
}

/// Keeps a value there.
fn put(kept: &mut Vec<Kept>, value: Value, place: Kept)
    ensures { kept.new.items ≡ slice_set kept.old.items value place }
{
    if (value as usize) < kept.len() {
        kept[value as usize] = place;
    }
}

/// Gives a register of a file to a span.
fn take(
    first: u32,
    held: &mut Vec<Option<Span>>,
    kept: &mut Vec<Kept>,
    span: Span,
    register: usize,
) -> Result<(), NoMemory>
    requires { register < length held.old.items }
    ensures held { OnOk result (held.new.items ≡ slice_set held.old.items register (Some span)) }
    ensures kept { OnOk result (kept.new.items ≡ slice_set kept.old.items span.value (InRegister (first + register))) }
{
    let number = sum(first, number_of(register)?)?;
    held[register] = Some(span);
    put(kept, span.value, Kept::InRegister(number));
    Ok(())
}

/// Gives a span a register of its file, or a slot to the last of the holders and itself. Gives the number of the next slot.
#[tactic(auto, using(crate::proofs::Holding::gives_free))]
fn give(
    first: u32,
    held: &mut Vec<Option<Span>>,
    kept: &mut Vec<Kept>,
    span: Span,
    next: u32,
) -> Result<u32, NoMemory>
    ensures { IfOk result (λ new. Gives span first held.old.items kept.old.items next held.new.items kept.new.items new) }
{
    match free_at(held.as_slice(), span.from) {
        Some(register) => {
            take(first, held, kept, span, register)?;
            Ok(next)
        }
        None => {
            let last = last_of(held.as_slice(), span);
            give_last(first, held, kept, span, last, next)
        }
    }
}

/// The last of the holders and a new span goes to the next slot, and the register of a holder to the new span.
#[tactic(auto, using(crate::proofs::Holding::last_within, crate::proofs::Holding::gives_slot, crate::proofs::Holding::gives_its))]
fn give_last(
    first: u32,
    held: &mut Vec<Option<Span>>,
    kept: &mut Vec<Kept>,
    span: Span,
    last: Last,
    next: u32,
) -> Result<u32, NoMemory>
    requires held { AllHeld held.old.items span.from }
    requires last { IsLast held.old.items span (length held.old.items) last }
    ensures { IfOk result (λ new. Gives span first held.old.items kept.old.items next held.new.items kept.new.items new) }
{
    match last.register {
        Some(register) => {
            put(kept, last.span.value, Kept::InSlot(next));
            take(first, held, kept, span, register)?;
            sum(next, 1)
        }
        None => {
            put(kept, span.value, Kept::InSlot(next));
            sum(next, 1)
        }
    }
}

/// Finds where values that have these spans are kept.
#[tactic(auto, using(crate::proofs::Scans::going_first, crate::proofs::Scans::going_on, crate::proofs::Scans::going_over))]
pub(crate) fn scan(
    alloc: Global,
    machine: &Machine,
    spans: &[Span],
    kept: &mut Vec<Kept>,
) -> Result<(), NoMemory>
    requires { Scannable spans.now kept.old.items }
    ensures { OnOk result (Scanned machine.now spans.now kept.new.items) }
{
    let mut file = 0;
    let mut held = free_registers(alloc, registers_of(machine, file))?;
    let mut next = 0;
    let mut rest = spans;
    'scan: loop {
        match rest.split_first() {
            None => return Ok(()),
            Some((span, others)) => {
                held = turned(alloc, machine, span.file, file, held)?;
                file = span.file;
                next = give(first_register(machine, file), &mut held, kept, *span, next)?;
                rest = others;
            }
        }
    }
}
