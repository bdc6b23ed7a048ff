// The whole page of a program, part after part.

use crate::given::{Given, names_for, notes_for, totals_of, view_of};
use std::alloc::Global;
use vx_base::outcome::NoMemory;
use vx_flow::graph::Graph;
use vx_html::blocks::put_blocks;
use vx_html::head::{
    put_asked, put_front, put_machine, put_marks, put_section, put_source, put_totals,
};
use vx_html::passes::{cycles_of, passes_of};
use vx_html::times::{Spent, put_times, spent_in};
use vx_html::traces::put_trace;
use vx_page::notes::BlockNote;
use vx_page::page::{Page, small};
use vx_page::view::{Names, TraceView};
use vx_rewrite::FlowOptions;

fn put_function(
    alloc: Global,
    page: &mut Page,
    given: &Given,
    function: u32,
    graph: &Graph,
) -> Result<(), NoMemory> {
    let notes = notes_for(alloc, given.traces(), function, graph)?;
    put_blocks(
        page,
        &names_for(given, function, graph),
        function,
        given.counts,
        graph,
        notes.as_slice(),
    );
    Ok(())
}

fn put_functions(alloc: Global, page: &mut Page, given: &Given) -> Result<(), NoMemory> {
    for (number, graph) in given.flow.functions.as_slice().iter().enumerate() {
        put_function(alloc, page, given, small(number), graph)?;
    }
    Ok(())
}

fn put_counted(
    alloc: Global,
    page: &mut Page,
    given: &Given,
    names: &Names,
    trace: &TraceView,
    notes: &[BlockNote],
) -> Result<(), NoMemory> {
    let passes = passes_of(alloc, given.counts, trace, notes)?;
    let cycles = cycles_of(given.machine, given.counts, trace, notes, passes.as_slice());
    put_trace(alloc, page, given.machine, names, trace, notes, cycles)
}

fn put_traces_by(
    alloc: Global,
    page: &mut Page,
    given: &Given,
    function: u32,
    graph: &Graph,
    notes: &[BlockNote],
) -> Result<(), NoMemory> {
    let names = names_for(given, function, graph);
    for (number, plan) in given.traces().iter().enumerate() {
        if plan.function == function {
            put_counted(alloc, page, given, &names, &view_of(number, plan), notes)?;
        }
    }
    Ok(())
}

fn put_traces_of(
    alloc: Global,
    page: &mut Page,
    given: &Given,
    function: u32,
    graph: &Graph,
) -> Result<(), NoMemory> {
    let notes = notes_for(alloc, given.traces(), function, graph)?;
    put_traces_by(alloc, page, given, function, graph, notes.as_slice())
}

fn put_traces(alloc: Global, page: &mut Page, given: &Given) -> Result<(), NoMemory> {
    for (number, graph) in given.flow.functions.as_slice().iter().enumerate() {
        put_traces_of(alloc, page, given, small(number), graph)?;
    }
    Ok(())
}

fn push_spent(
    alloc: Global,
    given: &Given,
    trace: &TraceView,
    notes: &[BlockNote],
    spent: &mut Vec<Spent>,
) -> Result<(), NoMemory> {
    let passes = passes_of(alloc, given.counts, trace, notes)?;
    let cycles = cycles_of(given.machine, given.counts, trace, notes, passes.as_slice());
    spent.push(spent_in(trace, passes.as_slice(), cycles))?;
    Ok(())
}

fn push_spent_by(
    alloc: Global,
    given: &Given,
    function: u32,
    notes: &[BlockNote],
    spent: &mut Vec<Spent>,
) -> Result<(), NoMemory> {
    for (number, plan) in given.traces().iter().enumerate() {
        if plan.function == function {
            push_spent(alloc, given, &view_of(number, plan), notes, spent)?;
        }
    }
    Ok(())
}

fn push_spent_of(
    alloc: Global,
    given: &Given,
    function: u32,
    graph: &Graph,
    spent: &mut Vec<Spent>,
) -> Result<(), NoMemory> {
    let notes = notes_for(alloc, given.traces(), function, graph)?;
    push_spent_by(alloc, given, function, notes.as_slice(), spent)
}

fn push_all_spent(alloc: Global, given: &Given, spent: &mut Vec<Spent>) -> Result<(), NoMemory> {
    for (number, graph) in given.flow.functions.as_slice().iter().enumerate() {
        push_spent_of(alloc, given, small(number), graph, spent)?;
    }
    Ok(())
}

/// Puts where a run spends its cycles.
fn put_time(alloc: Global, page: &mut Page, given: &Given) -> Result<(), NoMemory> {
    let mut spent = Vec::new(alloc);
    push_all_spent(alloc, given, &mut spent)?;
    put_times(page, given.functions, &mut spent);
    Ok(())
}

/// Puts what was asked of the graphs.
fn put_options(page: &mut Page, options: FlowOptions) {
    if let Some(most) = options.select {
        page.field(b"<p>splits that became choices have at most <b>", most);
        page.put(b"</b> operations</p>\n");
    }
    if let Some(most) = options.inline {
        page.field(
            b"<p>functions whose calls were inlined have at most <b>",
            most,
        );
        page.put(b"</b> operations</p>\n");
    }
}

/// Puts the front of a page, with the source.
pub(crate) fn put_head(page: &mut Page, given: &Given, source: &[u8]) {
    put_front(page, &given.asked);
    put_asked(page, &given.asked);
    put_options(page, given.options);
    put_totals(page, &totals_of(given.compiled));
    put_source(page, source);
    put_machine(page, given.machine);
    put_marks(page);
}

/// Puts where a run spends its cycles, the blocks and the traces.
pub(crate) fn put_body(alloc: Global, page: &mut Page, given: &Given) -> Result<(), NoMemory> {
    put_section(
        page,
        b"time",
        b"Cycles in traces, by the counts of the profile",
    );
    put_time(alloc, page, given)?;
    put_section(page, b"blocks", b"Blocks, as they were planned");
    put_functions(alloc, page, given)?;
    put_section(
        page,
        b"traces",
        b"Traces, in the order in which they were picked",
    );
    put_traces(alloc, page, given)
}
