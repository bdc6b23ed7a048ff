// Registers by linear scan (Poletto and Sarkar 1999): the spans of all values, sorted by their files and first places, are scanned
// from left to right. specs/Mapped.antt says when a map keeps values apart, and when it gives no slot without need.

ghost use Rattle.std.specs.Prelude.{◌≡◌, ◌<◌, ◌++◌, ℕ, IfOk, Some, length, map, slice_get};
ghost use Rattle.std.specs.List.Sorted.{IsNonDecreasingBy, IsPermutation};
ghost use Rattle.vx_room.specs.Items.{latency_of_op};
ghost use Rattle.vx_regs.specs.BusyPlaces.{AreHulls};
ghost use Rattle.vx_mixed.specs.LaidSettled.{LeadsTo, bank_in, home_in};
ghost use Rattle.vx_mixed.specs.declared.layout.VirtualWord.{VirtualWord};
ghost use Rattle.vx_regs.specs.Filed.{file_in, file_number, first_register, span_key, span_list, spans_from};
ghost use Rattle.vx_regs.specs.Mapped.{Mapped};
ghost use Rattle.vx_regs.specs.Spans.{kept_at};
ghost use Rattle.vx_regs.specs.declared.map.Kept.TheVariants.{Nowhere};

use crate::busy::hulls_of;
use crate::hulls::Hull;
use crate::map::{Kept, RegMap};
use crate::scan::scan;
use crate::spans::Span;
use std::alloc::Global;
use vx_base::listed::Listed;
use vx_base::outcome::NoMemory;
use vx_base::sizes::{number_of, sum};
use vx_flow::graph::{Bank, Value};
use vx_machine::Machine;
use vx_mixed::layout::VWords;
use vx_room::home_of;

/// The bank of a value of a layout.
fn bank_in(layout: &VWords, value: Value) -> Option<Bank>
    ensures { result ≡ bank_in layout.now value }
{
    let banks = layout.banks.as_slice();
    if banks.is_empty() {
        return None;
    }
    match banks.get(value as usize % banks.len()) {
        Some(bank) => Some(*bank),
        None => None,
    }
}

/// The cluster on which a value of a layout stands.
pub fn home_in(layout: &VWords, value: Value) -> u32
    ensures { result ≡ home_in layout.now value }
{
    let values = layout.banks.len() as u32;
    if value < values {
        match home_of(&layout.homes, value) {
            Some(cluster) => cluster,
            None => 0,
        }
    } else if values == 0 {
        0
    } else {
        (value / values).saturating_sub(1)
    }
}

/// The number of a file; one past `u32` is want of memory.
fn file_number(bank: Option<Bank>, home: u32) -> Result<u32, NoMemory>
    ensures { IfOk result (λ file. file ≡ file_number bank home) }
{
    match bank {
        None => Ok(0),
        Some(Bank::General) => sum(home, 1),
        Some(Bank::Branch) => Ok(0),
    }
}

/// Adds the span of a value, if it has a hull.
fn push_span(
    layout: &VWords,
    spans: &mut Vec<Span>,
    value: Value,
    hull: Option<Hull>,
) -> Result<(), NoMemory>
    ensures { IfOk result (λ _. spans.new.items ≡ spans.old.items ++ span_list layout.now value hull) }
{
    match hull {
        None => {}
        Some(hull) => {
            let file = file_number(bank_in(layout, value), home_in(layout, value))?;
            spans.push(Span {
                file,
                from: hull.from,
                to: hull.to,
                value,
            })?;
        }
    }
    Ok(())
}

/// The spans of all values that have hulls.
fn spans_of(alloc: Global, layout: &VWords, hulls: &[Option<Hull>]) -> Result<Vec<Span>, NoMemory>
    ensures { IfOk result (λ spans. spans.items ≡ spans_from layout.now 0 hulls.now) }
{
    let mut spans = Vec::new(alloc);
    for (value, hull) in hulls.iter().enumerate() {
        push_span(layout, &mut spans, number_of(value)?, *hull)?;
    }
    Ok(spans)
}

fn sort_spans(spans: &mut Vec<Span>)
    ensures sorted { IsNonDecreasingBy span_key spans.new.items }
    ensures same { IsPermutation spans.old.items spans.new.items }
{
    spans.sort_unstable_by_key(span_key);
}

/// The number by which spans are sorted.
fn span_key(span: &Span) -> u64
    ensures { result ≡ span_key span.now }
{
    span.file as u64 * 4294967296 + span.from as u64
}

/// So many values that are kept nowhere.
#[tactic(auto, using(crate::proofs::Allocated::nowhere_more))]
fn kept_nowhere(alloc: Global, count: usize) -> Result<Vec<Kept>, NoMemory>
    ensures count { IfOk result (λ kept. length kept.items ≡ count) }
    ensures nowhere { IfOk result (λ kept. (v : ℕ) → kept_at kept.items v ≡ Nowhere) }
{
    let mut kept = Vec::new(alloc);
    'values: for _ in 0..count {
        kept.push(Kept::Nowhere)?;
    }
    Ok(kept)
}

/// Where no value has a bank, no two can meet in a file.
fn kept_without_banks(alloc: Global, hulls: &[Option<Hull>]) -> Result<Vec<Kept>, NoMemory>
    ensures { IfOk result (λ kept. kept.items ≡ map first_register hulls.now) }
{
    let mut kept = Vec::new(alloc);
    for hull in hulls {
        kept.push(match hull {
            None => Kept::Nowhere,
            Some(_) => Kept::InRegister(0),
        })?;
    }
    Ok(kept)
}

/// Where the values that have hulls are kept, where no value has a bank.
fn keep_without_banks(
    alloc: Global,
    code: &VWords,
    machine: &Machine,
    hulls: &[Option<Hull>],
) -> Result<RegMap, NoMemory>
    requires hulls { AreHulls (latency_of_op machine.now) code.now hulls.now }
    requires none { length code.now.banks ≡ 0 }
    ensures { IfOk result (λ map. Mapped machine.now (latency_of_op machine.now) code.now map) }
{
    let _issue = machine.issue();
    let kept = kept_without_banks(alloc, hulls)?;
    let values = Listed::from_vec(kept)?;
    Ok(RegMap { values })
}

/// Where the values that have hulls are kept.
fn keep_by_scan(
    alloc: Global,
    code: &VWords,
    machine: &Machine,
    hulls: &[Option<Hull>],
) -> Result<RegMap, NoMemory>
    requires inside { (p q : ℕ) (word : VirtualWord) → slice_get code.now.words p ≡ Some word → LeadsTo p word q → q < length code.now.words }
    requires hulls { AreHulls (latency_of_op machine.now) code.now hulls.now }
    requires some { 0 < length code.now.banks }
    ensures { IfOk result (λ map. Mapped machine.now (latency_of_op machine.now) code.now map) }
{
    let _count = code.words.len();
    let mut spans = spans_of(alloc, code, hulls)?;
    sort_spans(&mut spans);
    let mut kept = kept_nowhere(alloc, hulls.len())?;
    scan(alloc, machine, spans.as_slice(), &mut kept)?;
    let values = Listed::from_vec(kept)?;
    Ok(RegMap { values })
}

/// Where each value is kept, by a linear scan: a value has its register from the first word at which it is live, named or pending to
/// the last. A value is in a slot only where a file is full; which one is not promised.
pub fn registers(alloc: Global, code: &VWords, machine: &Machine) -> Result<RegMap, NoMemory>
    requires inside { (p q : ℕ) (word : VirtualWord) → slice_get code.now.words p ≡ Some word → LeadsTo p word q → q < length code.now.words }
    requires entry { code.now.entry < length code.now.words }
    ensures { IfOk result (λ map. Mapped machine.now (latency_of_op machine.now) code.now map) }
{
    let hulls = hulls_of(alloc, code, machine)?;
    if code.banks.is_empty() {
        keep_without_banks(alloc, code, machine, hulls.as_slice())
    } else {
        keep_by_scan(alloc, code, machine, hulls.as_slice())
    }
}
