// Why an operation stands in its word and in no earlier one: the operation that it waits for, or what is full.

use crate::bars::Bar;
use crate::loads::{Full, Load, both, copies_in, full_at, load_at, name_of_full, need_of};
use vx_dep::Earlier;
use vx_dep::traits::{read, written};
use vx_flow::graph::Value;
use vx_flow::operands::Reads;
use vx_flow::trace::TraceOp;
use vx_machine::Machine;
use vx_page::facts::OpFact;
use vx_page::notes::BlockNote;
use vx_page::operations::put_value;
use vx_page::page::Page;
use vx_page::view::{Names, TraceView};

/// All that is shown of a trace.
#[derive(Clone, Copy)]
pub struct Shown<'a> {
    /// The machine.
    pub machine: &'a Machine,
    /// The names of the program and of the trace's function.
    pub names: Names<'a>,
    /// The trace.
    pub trace: TraceView<'a>,
    /// What is told of its operations.
    pub facts: &'a [OpFact],
    /// What its words take.
    pub loads: &'a [Load],
    /// Its results that take more than a cycle to land.
    pub bars: &'a [Bar],
    /// The blocks of its function.
    pub notes: &'a [BlockNote],
    /// The greatest sum of delays from its start to its end.
    pub longest: u32,
}

impl<'a> Shown<'a> {
    /// Its operations.
    pub fn ops(&self) -> &'a [TraceOp] {
        self.trace.placed.clustered.trace.ops.as_slice()
    }
}

fn is_read(reads: &Reads, value: Value) -> bool {
    reads.first == Some(value) || reads.second == Some(value) || reads.third == Some(value)
}

/// The value that an operation reads of one above it, if it reads one.
fn value_between(above: &TraceOp, op: &TraceOp) -> Option<Value> {
    match written(above) {
        Some(value) => {
            if is_read(&read(op), value) {
                Some(value)
            } else {
                None
            }
        }
        None => None,
    }
}

/// The value for which an operation waits.
fn waited_value(shown: &Shown, earlier: Earlier, op: &TraceOp) -> Option<Value> {
    match shown.ops().get(earlier.place as usize) {
        Some(above) => value_between(above, op),
        None => None,
    }
}

fn put_delay(page: &mut Page, earlier: Earlier, name: &[u8], ready: u32) {
    page.field(b" by ", earlier.delay);
    page.field(name, ready);
}

fn put_waits_for(page: &mut Page, shown: &Shown, earlier: Earlier, op: &TraceOp, ready: u32) {
    match waited_value(shown, earlier, op) {
        Some(value) => {
            page.put(b"waits for ");
            put_value(page, value);
            page.field(b" of op ", earlier.place);
            put_delay(page, earlier, b", there from word ", ready);
        }
        None => {
            page.field(b"keeps behind op ", earlier.place);
            put_delay(page, earlier, b", free from word ", ready);
        }
    }
}

fn put_full(page: &mut Page, shown: &Shown, fact: &OpFact, op: &TraceOp) {
    let clusters = shown.machine.clusters();
    let need = need_of(op);
    let load = load_at(shown.loads, clusters, fact.ready, fact.cluster);
    let copies = copies_in(shown.loads, clusters, fact.ready).saturating_add(need.copies);
    page.field(b"; word ", fact.ready);
    match full_at(shown.machine, both(load, need), copies) {
        Full::Nothing => page.put(b" has room, and was given to others first"),
        full => {
            page.put(b" has ");
            page.put(name_of_full(full));
            page.put(b" taken");
        }
    }
}

fn put_reason(page: &mut Page, shown: &Shown, fact: &OpFact, op: &TraceOp) {
    match fact.waits_for {
        Some(earlier) => put_waits_for(page, shown, earlier, op, fact.ready),
        None => page.put(b"waits for nothing"),
    }
    if fact.word > fact.ready {
        put_full(page, shown, fact, op);
    }
}

/// Puts why the operation at a place stands in no earlier word.
pub fn put_why(page: &mut Page, shown: &Shown, place: u32) {
    if let (Some(fact), Some(op)) = (
        shown.facts.get(place as usize),
        shown.ops().get(place as usize),
    ) {
        put_reason(page, shown, fact, op);
    }
}
