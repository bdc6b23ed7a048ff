// What a page is made of, and the names of a program.

use crate::planned::{Planned, Read};
use std::alloc::Global;
use vx_ast::fault::SourceFault;
use vx_ast::typed::Typed;
use vx_base::listed::{Bytes, copied};
use vx_base::outcome::NoMemory;
use vx_compiled::CompiledProgram;
use vx_flow::graph::{Flow, Graph};
use vx_html::head::{Asked, Totals};
use vx_lex::tokens;
use vx_machine::Machine;
use vx_page::declarations::{ArrayNames, array_names};
use vx_page::notes::{BlockNote, note_trace, notes_of};
use vx_page::page::small;
use vx_page::view::{Names, TraceView, names_of_graph};
use vx_profile::counts::Counts;
use vx_region::TracePlan;
use vx_rewrite::FlowOptions;

/// A program that was compiled for a machine.
#[derive(Clone, Copy)]
pub(crate) struct Given<'a> {
    /// The names of its functions.
    pub(crate) functions: &'a [Bytes],
    /// The names of its arrays.
    pub(crate) arrays: &'a ArrayNames,
    /// The graphs that were planned.
    pub(crate) flow: &'a Flow,
    /// How often their blocks were passed.
    pub(crate) counts: &'a Counts,
    /// The machine.
    pub(crate) machine: &'a Machine,
    /// The words and their plan.
    pub(crate) compiled: &'a CompiledProgram,
    /// What was asked.
    pub(crate) asked: Asked<'a>,
    /// What was asked of the graphs.
    pub(crate) options: FlowOptions,
}

impl<'a> Given<'a> {
    /// The traces.
    pub(crate) fn traces(&self) -> &'a [TracePlan] {
        self.compiled.plan.traces.as_slice()
    }
}

/// What a page is made of, for a program and what was planned of it.
pub(crate) fn given_of<'a>(read: &Read<'a>, planned: &'a Planned, asked: Asked<'a>) -> Given<'a> {
    Given {
        functions: read.functions,
        arrays: read.arrays,
        flow: &planned.flow,
        counts: read.counts,
        machine: read.machine,
        compiled: &planned.compiled,
        asked,
        options: read.options,
    }
}

/// The names of the arrays of a source, none where it has no tokens.
pub(crate) fn arrays_of(alloc: Global, source: &[u8]) -> Result<ArrayNames, NoMemory> {
    if source.len() > 1048576 {
        return array_names(alloc, &[]);
    }
    match tokens(alloc, source) {
        Ok(all) => array_names(alloc, all.as_slice()),
        Err(SourceFault::NoMemory) => Err(NoMemory),
        Err(_) => array_names(alloc, &[]),
    }
}

/// The names of the functions of a program.
pub(crate) fn names_of(alloc: Global, program: &Typed) -> Result<Vec<Bytes>, NoMemory> {
    let mut names = Vec::new(alloc);
    for function in program.program.functions.as_slice() {
        let name = copied(alloc, function.name.as_slice())?;
        names.push(name)?;
    }
    Ok(names)
}

/// The names that are needed for the graph of a function.
pub(crate) fn names_for<'a>(given: &Given<'a>, function: u32, graph: &'a Graph) -> Names<'a> {
    names_of_graph(given.functions, given.arrays, given.flow, function, graph)
}

/// A trace of the plan, with its number.
pub(crate) fn view_of(number: usize, plan: &TracePlan) -> TraceView<'_> {
    TraceView {
        number: small(number),
        function: plan.function,
        blocks: plan.blocks.as_slice(),
        count: plan.count,
        mode: plan.mode,
        placed: &plan.placed,
        splits: plan.splits.as_slice(),
        rejoins: plan.rejoins.as_slice(),
    }
}

/// What is known of the blocks of a function behind all of its traces.
pub(crate) fn notes_for(
    alloc: Global,
    traces: &[TracePlan],
    function: u32,
    graph: &Graph,
) -> Result<Vec<BlockNote>, NoMemory> {
    let mut notes = notes_of(alloc, graph.blocks.as_slice())?;
    note_traces(&mut notes, traces, function)?;
    Ok(notes)
}

fn note_traces(
    notes: &mut Vec<BlockNote>,
    traces: &[TracePlan],
    function: u32,
) -> Result<(), NoMemory> {
    for (number, plan) in traces.iter().enumerate() {
        if plan.function == function {
            note_trace(notes, &view_of(number, plan))?;
        }
    }
    Ok(())
}

/// The sums of a compiled program.
pub(crate) fn totals_of(compiled: &CompiledProgram) -> Totals {
    let mut trace_words: u64 = 0;
    let mut operations: u64 = 0;
    for plan in compiled.plan.traces.as_slice() {
        trace_words = trace_words.saturating_add(u64::from(plan.placed.length));
        operations = operations.saturating_add(plan.placed.words.len() as u64);
    }
    Totals {
        words: compiled.words.words.len() as u32,
        traces: compiled.plan.traces.len() as u32,
        trace_words,
        operations,
        copies: compiled.plan.copies,
        spilled: compiled.plan.spilled,
    }
}
