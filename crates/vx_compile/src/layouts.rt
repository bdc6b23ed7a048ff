// The layouts of the functions of a program: the blocks of each turned into regions, trace after trace, and these laid out as words
// over values. What a laid out function owes stands in specs/Stages.antt, and its plan in specs/Compiled.antt of
// vx_compiled.

ghost use Rattle.std.specs.Prelude.{◌≡◌, ◌∷◌, [], ◌++◌, length, IfOk, OnOk};
ghost use Rattle.vx_mixed.specs.Layout.{IsDone, layout_of};
ghost use Rattle.vx_compile.specs.Stages.{AllBegin, AreLaidOut, Begins, IsLaidOut};

use std::alloc::Global;
use vx_base::listed::Listed;
use vx_base::outcome::NoMemory;
use vx_flow::graph::Graph;
use vx_layout::lay_out;
use vx_machine::Machine;
use vx_mixed::layout::VWords;
use vx_profile::counts::Counts;
use vx_region::laws::{all_steps_keep_the_graph, graphs_begin_so};
use vx_region::{Budget, Regions, TracePlan, all_regions};
use vx_replace::Mixed;

/// A function that is laid out.
#[derive(Drop)]
struct LaidFunction {
    /// Its words over values.
    layout: VWords,
    /// The plans of its traces.
    traces: Listed<TracePlan>,
}

/// Functions that are laid out.
#[derive(Drop)]
pub(crate) struct LaidProgram {
    /// The words over values of each.
    pub(crate) layouts: Listed<VWords>,
    /// The plans of their traces, function by function.
    pub(crate) traces: Listed<TracePlan>,
    /// How many operations were copied, counted for each edge.
    pub(crate) copies: u32,
}

/// The layout of the function with a number, all of it turned into regions, one picked trace after the other. Its counts are
/// those under its number.
fn layout_of(
    alloc: Global,
    function: u32,
    graph: &Graph,
    counts: &Counts,
    machine: &Machine,
    budget: &mut Budget,
) -> Result<LaidFunction, NoMemory>
    requires { Begins graph.now }
    ensures laid { IfOk result (λ x. IsLaidOut machine.now counts.now budget.old.cap function graph.now budget.old.used x.traces x.layout budget.new.used) }
    ensures same_cap { budget.new.cap ≡ budget.old.cap }
{
    machine.keeps_ranges();
    graphs_begin_so();
    all_steps_keep_the_graph();
    let mut begun = Mixed::from_graph(alloc, graph)?;
    begun.set_function(function);
    begun.keeps_valid();
    let regions = all_regions(alloc, begun, counts, machine, budget)?;
    let Regions {
        mixed,
        plans: traces,
    } = regions;
    mixed.keeps_valid();
    let layout = laid_out(alloc, mixed)?;
    Ok(LaidFunction { layout, traces })
}

/// The layout of the regions of a graph, of which nothing else is needed any more.
fn laid_out(alloc: Global, mixed: Mixed) -> Result<VWords, NoMemory>
    requires { IsDone mixed }
    ensures { IfOk result (λ layout. layout ≡ layout_of mixed) }
{
    let layout = lay_out(alloc, mixed.graph());
    drop(mixed);
    layout
}

/// The number of the function whose layout comes behind these.
fn number_of(layouts: &Listed<VWords>) -> u32
    ensures { result ≡ length layouts.now }
{
    layouts.len() as u32
}

fn put_traces(traces: &mut Listed<TracePlan>, more: Listed<TracePlan>) -> Result<(), NoMemory>
    ensures { OnOk result (traces.new ≡ traces.old ++ more) }
{
    for trace in more.into_vec() {
        traces.push(trace)?;
    }
    Ok(())
}

/// Puts a function behind others.
fn put_function(
    layouts: &mut Listed<VWords>,
    traces: &mut Listed<TracePlan>,
    laid: LaidFunction,
) -> Result<(), NoMemory>
    ensures layouts { OnOk result (layouts.new ≡ layouts.old ++ laid.layout ∷ []) }
    ensures traces { OnOk result (traces.new ≡ traces.old ++ laid.traces) }
{
    let LaidFunction {
        layout,
        traces: more,
    } = laid;
    put_traces(traces, more)?;
    layouts.push(layout)?;
    Ok(())
}

/// The layouts of functions, and the plans of their traces. At most so many operations are copied in all of them.
pub(crate) fn layouts_of(
    alloc: Global,
    graphs: &[Graph],
    counts: &Counts,
    machine: &Machine,
    growth: u32,
) -> Result<LaidProgram, NoMemory>
    requires { AllBegin graphs.now }
    ensures { IfOk result (λ x. AreLaidOut machine.now counts.now growth graphs.now x.traces x.layouts x.copies) }
{
    let mut budget = Budget::make(growth);
    let mut layouts = Listed::new(alloc);
    let mut traces = Listed::new(alloc);
    for graph in graphs {
        let function = number_of(&layouts);
        let laid = layout_of(alloc, function, graph, counts, machine, &mut budget)?;
        put_function(&mut layouts, &mut traces, laid)?;
    }
    Ok(LaidProgram {
        layouts,
        traces,
        copies: budget.used,
    })
}
