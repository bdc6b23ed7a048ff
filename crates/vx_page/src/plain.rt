// Traces as a plain text: each with its words, and in these its operations.

use crate::facts::{OpFact, Passed, facts_of};
use crate::notes::BlockNote;
use crate::operations::{put_function, put_mode, put_trace_op};
use crate::page::Page;
use crate::spots::{Spot, spots_of};
use crate::view::{Names, TraceView};
use std::alloc::Global;
use vx_base::outcome::NoMemory;
use vx_dep::copies::{EdgeCopies, Rejoin};
use vx_machine::Machine;

fn put_numbers(page: &mut Page, numbers: &[u32]) {
    for number in numbers {
        page.field(b" ", *number);
    }
}

fn put_front(page: &mut Page, names: &Names, trace: &TraceView) {
    page.field(b"trace ", trace.number);
    page.put(b" function ");
    put_function(page, names, trace.function);
    page.put(b" count ");
    page.long(trace.count);
    page.put(b" mode ");
    put_mode(page, trace.mode);
    page.field(b" words ", trace.placed.length);
    page.put(b" blocks");
    put_numbers(page, trace.blocks);
    page.put(b"\n");
}

fn put_fact(page: &mut Page, fact: &OpFact) {
    page.field(b"  word ", fact.word);
    page.field(b" cluster ", fact.cluster);
    page.field(b" block ", fact.block);
    page.field(b" height ", fact.height);
}

fn put_passed(page: &mut Page, name: &[u8], passed: Option<Passed>) {
    if let Some(passed) = passed {
        page.field(name, passed.first);
        if passed.count > 1 {
            page.field(b" and more ", passed.count.saturating_sub(1));
        }
    }
}

fn put_how(page: &mut Page, fact: &OpFact) {
    put_passed(page, b" above ", fact.above_split);
    put_passed(page, b" below ", fact.below_split);
    put_passed(page, b" above block ", fact.above_join);
    if fact.is_dismissible {
        page.put(b" dismissible");
    }
}

fn put_spot(page: &mut Page, names: &Names, trace: &TraceView, facts: &[OpFact], place: u32) {
    let ops = trace.placed.clustered.trace.ops.as_slice();
    if let (Some(fact), Some(op)) = (facts.get(place as usize), ops.get(place as usize)) {
        put_fact(page, fact);
        page.field(b" op ", place);
        page.put(b": ");
        put_trace_op(page, names, op);
        put_how(page, fact);
        page.put(b"\n");
    }
}

fn put_split(page: &mut Page, split: &EdgeCopies) {
    page.field(b"  split ", split.split);
    page.field(b" edge ", split.edge.from);
    page.field(b" ", split.edge.to);
    page.put(b" copies");
    put_numbers(page, split.copies.as_slice());
    page.put(b"\n");
}

fn put_join(page: &mut Page, rejoin: &Rejoin) {
    page.field(b"  join ", rejoin.block);
    page.field(b" word ", rejoin.word);
    page.put(b" copies");
    put_numbers(page, rejoin.copies.as_slice());
    page.put(b"\n");
}

fn put_edges(page: &mut Page, trace: &TraceView) {
    for split in trace.splits {
        put_split(page, split);
    }
    for rejoin in trace.rejoins {
        put_join(page, rejoin);
    }
}

fn put_spots(page: &mut Page, names: &Names, trace: &TraceView, facts: &[OpFact], spots: &[Spot]) {
    for spot in spots {
        put_spot(page, names, trace, facts, spot.place);
    }
}

fn put_ops(
    alloc: Global,
    page: &mut Page,
    names: &Names,
    trace: &TraceView,
    facts: &[OpFact],
) -> Result<(), NoMemory> {
    let spots = spots_of(alloc, facts)?;
    put_spots(page, names, trace, facts, spots.as_slice());
    Ok(())
}

/// Puts a trace as a plain text.
pub fn put_plain_trace(
    alloc: Global,
    page: &mut Page,
    machine: &Machine,
    names: &Names,
    trace: &TraceView,
    notes: &[BlockNote],
) -> Result<(), NoMemory> {
    let facts = facts_of(alloc, machine, trace, notes)?;
    put_front(page, names, trace);
    put_ops(alloc, page, names, trace, facts.as_slice())?;
    put_edges(page, trace);
    Ok(())
}
