// The report of a plan: trace by trace, and then the sums.

ghost use Rattle.std.specs.Prelude.{◌≡◌, ◌++◌, IfOk, OnOk};
ghost use Rattle.vx_ast.specs.View as view;
ghost use Rattle.vx_dep.specs.Compensation.{word_at};
ghost use Rattle.vx_report.specs.Report.{name_at, names_of, ops_text, placed_text, places_at, report_text, seed_text, sums_text, trace_text, traces_text};

use crate::lines::{
    push_bytes, push_field, push_joins, push_mode, push_numbers, push_op, push_small, push_splits,
};
use crate::plan::Plan;
use std::alloc::Global;
use vx_ast::typed::Typed;
use vx_base::outcome::NoMemory;
use vx_flow::trace::TraceOp;
use vx_region::TracePlan;
use vx_target::finished::TracePlaces;

/// The name of a function. One that the program does not have has no letter.
fn name_of(program: &Typed, function: u32) -> &[u8]
    ensures { result.now ≡ name_at (names_of (view.program_of program.now.program)) function }
{
    match program.program.functions.as_slice().get(function as usize) {
        Some(found) => found.name.as_slice(),
        None => &[],
    }
}

/// The number at a place of a list, 0 beyond its end.
fn number_at(numbers: &[u32], place: usize) -> u32
    ensures { result ≡ word_at numbers.now place }
{
    match numbers.get(place) {
        Some(number) => *number,
        None => 0,
    }
}

/// The places of the words of a trace, none beyond the end of the list.
fn places_of(places: &[TracePlaces], number: usize) -> &[u32]
    ensures { result.now ≡ places_at places.now number }
{
    match places.get(number) {
        Some(trace) => trace.places.as_slice(),
        None => &[],
    }
}

fn push_ops(
    out: &mut Vec<u8>,
    ops: &[TraceOp],
    words: &[u32],
    clusters: &[u32],
) -> Result<(), NoMemory>
    ensures { OnOk result (out.new.items ≡ out.old.items ++ ops_text words.now clusters.now 0 ops.now) }
{
    for (place, _op) in ops.iter().enumerate() {
        push_op(
            out,
            place as u64,
            number_at(words, place),
            number_at(clusters, place),
        )?;
    }
    Ok(())
}

/// Puts the first line of a trace.
fn push_seed(out: &mut Vec<u8>, number: u64, name: &[u8], plan: &TracePlan) -> Result<(), NoMemory>
    ensures { OnOk result (out.new.items ≡ out.old.items ++ seed_text number name.now plan.now) }
{
    push_field(out, b"trace ", number)?;
    push_bytes(out, b" function ")?;
    push_bytes(out, name)?;
    push_field(out, b" count ", plan.count)?;
    push_bytes(out, b" mode ")?;
    push_mode(out, plan.mode)?;
    push_small(out, b" words ", plan.placed.length)?;
    push_bytes(out, b"\n")
}

/// Puts how a trace was placed, and what is copied at its splits and joins.
fn push_placed(out: &mut Vec<u8>, plan: &TracePlan) -> Result<(), NoMemory>
    ensures { OnOk result (out.new.items ≡ out.old.items ++ placed_text plan.now) }
{
    push_numbers(out, b"blocks", plan.blocks.as_slice())?;
    push_ops(
        out,
        plan.placed.clustered.trace.ops.as_slice(),
        plan.placed.words.as_slice(),
        plan.placed.clustered.clusters.as_slice(),
    )?;
    push_splits(out, plan.splits.as_slice())?;
    push_joins(out, plan.rejoins.as_slice())
}

/// Puts the lines of a trace.
fn push_trace(
    out: &mut Vec<u8>,
    number: u64,
    name: &[u8],
    plan: &TracePlan,
    places: &[u32],
) -> Result<(), NoMemory>
    ensures { OnOk result (out.new.items ≡ out.old.items ++ trace_text number name.now plan.now places.now) }
{
    push_seed(out, number, name, plan)?;
    push_placed(out, plan)?;
    push_numbers(out, b"places", places)
}

fn push_traces(
    out: &mut Vec<u8>,
    program: &Typed,
    traces: &[TracePlan],
    places: &[TracePlaces],
) -> Result<(), NoMemory>
    ensures { OnOk result (out.new.items ≡ out.old.items ++ traces_text (names_of (view.program_of program.now.program)) places.now 0 traces.now) }
{
    for (number, plan) in traces.iter().enumerate() {
        push_trace(
            out,
            number as u64,
            name_of(program, plan.function),
            plan,
            places_of(places, number),
        )?;
    }
    Ok(())
}

/// Puts the sums, and the end.
fn push_sums(out: &mut Vec<u8>, spilled: u32, copies: u32) -> Result<(), NoMemory>
    ensures { OnOk result (out.new.items ≡ out.old.items ++ sums_text spilled copies) }
{
    push_small(out, b"spilled ", spilled)?;
    push_small(out, b"\ncopies ", copies)?;
    push_bytes(out, b"\nend\n")
}

/// The report of a plan of a program, as a text (docs/FORMATS.md). A function that the program does not have has no letter in
/// its name, and a trace without places in the plan none in its line. `Err` comes only where memory runs out. It takes a time
/// that grows with the length of the text.
pub fn report(alloc: Global, plan: &Plan, program: &Typed) -> Result<Vec<u8>, NoMemory>
    ensures { IfOk result (λ text. text.items ≡ report_text plan.now (names_of (view.program_of program.now.program))) }
{
    let mut out = Vec::new(alloc);
    push_bytes(&mut out, b"plan 1\n")?;
    push_traces(
        &mut out,
        program,
        plan.traces.as_slice(),
        plan.places.as_slice(),
    )?;
    push_sums(&mut out, plan.spilled, plan.copies)?;
    Ok(out)
}
