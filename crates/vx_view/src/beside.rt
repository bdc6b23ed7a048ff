// Two machines side by side: what each made of the same blocks, function by function, and the traces that the other one alone has.

use crate::given::{Given, names_for, notes_for, totals_of, view_of};
use std::alloc::Global;
use vx_base::outcome::NoMemory;
use vx_flow::graph::Graph;
use vx_html::against::{
    agree, put_both_totals, put_lone_front, put_pair_end, put_pair_front, put_pair_middle,
};
use vx_html::head::put_section;
use vx_html::traces::put_inside;
use vx_page::notes::BlockNote;
use vx_page::page::{Page, small};
use vx_page::view::TraceView;
use vx_region::TracePlan;

/// A function as both machines have it.
#[derive(Clone, Copy)]
struct Both<'a> {
    one: &'a Given<'a>,
    other: &'a Given<'a>,
    function: u32,
    graph: &'a Graph,
    other_graph: &'a Graph,
    notes: &'a [BlockNote],
    other_notes: &'a [BlockNote],
}

/// The trace among these that is of the same blocks.
fn partner_of<'a>(traces: &'a [TracePlan], trace: &TraceView) -> Option<TraceView<'a>> {
    for (number, plan) in traces.iter().enumerate() {
        let view = view_of(number, plan);
        if agree(&view, trace) {
            return Some(view);
        }
    }
    None
}

fn put_one(alloc: Global, page: &mut Page, both: &Both, trace: &TraceView) -> Result<(), NoMemory> {
    let names = names_for(both.one, both.function, both.graph);
    put_inside(alloc, page, both.one.machine, &names, trace, both.notes)
}

fn put_other(
    alloc: Global,
    page: &mut Page,
    both: &Both,
    trace: &TraceView,
) -> Result<(), NoMemory> {
    let names = names_for(both.other, both.function, both.other_graph);
    put_inside(
        alloc,
        page,
        both.other.machine,
        &names,
        trace,
        both.other_notes,
    )
}

fn put_pair(
    alloc: Global,
    page: &mut Page,
    both: &Both,
    trace: &TraceView,
    beside: &TraceView,
) -> Result<(), NoMemory> {
    put_pair_front(
        page,
        &names_for(both.one, both.function, both.graph),
        trace,
        beside,
    );
    put_one(alloc, page, both, trace)?;
    put_pair_middle(page);
    put_other(alloc, page, both, beside)?;
    put_pair_end(page);
    Ok(())
}

fn put_pairs(alloc: Global, page: &mut Page, both: &Both) -> Result<(), NoMemory> {
    for (number, plan) in both.one.traces().iter().enumerate() {
        let trace = view_of(number, plan);
        if plan.function == both.function {
            if let Some(beside) = partner_of(both.other.traces(), &trace) {
                put_pair(alloc, page, both, &trace, &beside)?;
            }
        }
    }
    Ok(())
}

fn put_lone(
    alloc: Global,
    page: &mut Page,
    both: &Both,
    trace: &TraceView,
) -> Result<(), NoMemory> {
    put_lone_front(
        page,
        &names_for(both.other, both.function, both.other_graph),
        trace,
    );
    put_other(alloc, page, both, trace)?;
    put_pair_end(page);
    Ok(())
}

fn put_lones(alloc: Global, page: &mut Page, both: &Both) -> Result<(), NoMemory> {
    for (number, plan) in both.other.traces().iter().enumerate() {
        let trace = view_of(number, plan);
        if plan.function == both.function && partner_of(both.one.traces(), &trace).is_none() {
            put_lone(alloc, page, both, &trace)?;
        }
    }
    Ok(())
}

fn put_function(
    alloc: Global,
    page: &mut Page,
    one: &Given,
    other: &Given,
    function: u32,
    graph: &Graph,
    other_graph: &Graph,
) -> Result<(), NoMemory> {
    let notes = notes_for(alloc, one.traces(), function, graph)?;
    let other_notes = notes_for(alloc, other.traces(), function, other_graph)?;
    let both = Both {
        one,
        other,
        function,
        graph,
        other_graph,
        notes: notes.as_slice(),
        other_notes: other_notes.as_slice(),
    };
    put_pairs(alloc, page, &both)?;
    put_lones(alloc, page, &both)
}

fn put_functions(
    alloc: Global,
    page: &mut Page,
    one: &Given,
    other: &Given,
) -> Result<(), NoMemory> {
    for (number, graph) in one.flow.functions.as_slice().iter().enumerate() {
        if let Some(beside) = other.flow.functions.as_slice().get(number) {
            put_function(alloc, page, one, other, small(number), graph, beside)?;
        }
    }
    Ok(())
}

/// Puts what another machine makes of the program beside what the first one does.
pub(crate) fn put_beside(
    alloc: Global,
    page: &mut Page,
    one: &Given,
    other: &Given,
) -> Result<(), NoMemory> {
    put_section(page, b"against", b"Against another machine");
    put_both_totals(
        page,
        &one.asked,
        &other.asked,
        &totals_of(one.compiled),
        &totals_of(other.compiled),
    );
    put_functions(alloc, page, one, other)
}
