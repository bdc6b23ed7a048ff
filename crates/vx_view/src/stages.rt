// The graphs of a stage, or the traces, as a plain text.

use crate::given::{notes_for, view_of};
use crate::options::Stage;
use crate::planned::{Read, planned_of};
use std::alloc::Global;
use vx_base::outcome::NoMemory;
use vx_compile::{counted_flow_of, planned_with, raised_for};
use vx_flow::graph::{Flow, Graph};
use vx_lower::lower;
use vx_page::graphs::put_graphs;
use vx_page::page::{Page, small};
use vx_page::plain::put_plain_trace;
use vx_page::view::names_of_graph;
use vx_profile::counts::Counts;
use vx_region::TracePlan;
use vx_rewrite::FlowOptions;

/// What is asked of the graphs that a profile counts: their calls stay.
fn counted_options(options: FlowOptions) -> FlowOptions {
    FlowOptions {
        inline: None,
        select: options.select,
    }
}

/// The graphs with operations raised over the bounds of blocks.
fn raised_of(alloc: Global, read: &Read) -> Result<Flow, NoMemory> {
    let flow = counted_flow_of(alloc, read.program, read.options)?;
    raised_for(alloc, flow, read.counts, read.machine)
}

/// The graphs of a stage; those that are planned for the traces.
fn graphs_of(alloc: Global, read: &Read, stage: Stage) -> Result<Flow, NoMemory> {
    match stage {
        Stage::Lowered => lower(alloc, read.program),
        Stage::Cleaned => counted_flow_of(alloc, read.program, counted_options(read.options)),
        Stage::Raised => raised_of(alloc, read),
        Stage::Renamed | Stage::Traces => planned_with(
            alloc,
            read.program,
            read.counts,
            read.machine,
            read.options,
        ),
    }
}

fn put_traces_of(
    alloc: Global,
    page: &mut Page,
    read: &Read,
    flow: &Flow,
    traces: &[TracePlan],
    function: u32,
    graph: &Graph,
) -> Result<(), NoMemory> {
    let names = names_of_graph(read.functions, read.arrays, flow, function, graph);
    let notes = notes_for(alloc, traces, function, graph)?;
    for (number, plan) in traces.iter().enumerate() {
        if plan.function == function {
            let trace = view_of(number, plan);
            put_plain_trace(alloc, page, read.machine, &names, &trace, notes.as_slice())?;
        }
    }
    Ok(())
}

fn put_traces(
    alloc: Global,
    page: &mut Page,
    read: &Read,
    flow: &Flow,
    traces: &[TracePlan],
) -> Result<(), NoMemory> {
    for (number, graph) in flow.functions.as_slice().iter().enumerate() {
        put_traces_of(alloc, page, read, flow, traces, small(number), graph)?;
    }
    Ok(())
}

fn put_planned(alloc: Global, page: &mut Page, read: &Read) -> Result<(), NoMemory> {
    let planned = planned_of(alloc, read)?;
    let traces = planned.compiled.plan.traces.as_slice();
    let put = put_traces(alloc, page, read, &planned.flow, traces);
    drop(planned);
    put
}

/// Graphs without counts: a profile counts the blocks of cleaned graphs, which have other numbers.
fn put_uncounted(alloc: Global, page: &mut Page, read: &Read, flow: &Flow) {
    let none = Counts::new(alloc);
    put_graphs(page, read.functions, read.arrays, &none, flow);
    drop(none);
}

fn put_flow(alloc: Global, page: &mut Page, read: &Read, stage: Stage) -> Result<(), NoMemory> {
    let flow = graphs_of(alloc, read, stage)?;
    match stage {
        Stage::Lowered => put_uncounted(alloc, page, read, &flow),
        _ => put_graphs(page, read.functions, read.arrays, read.counts, &flow),
    }
    drop(flow);
    Ok(())
}

fn put_stage(alloc: Global, page: &mut Page, read: &Read, stage: Stage) -> Result<(), NoMemory> {
    match stage {
        Stage::Traces => put_planned(alloc, page, read),
        _ => put_flow(alloc, page, read, stage),
    }
}

/// The text of a stage.
pub(crate) fn text_of(alloc: Global, read: &Read, stage: Stage) -> Result<Vec<u8>, NoMemory> {
    let mut page = Page::plain(alloc);
    match put_stage(alloc, &mut page, read, stage) {
        Ok(()) => page.done(),
        Err(error) => Err(error),
    }
}
