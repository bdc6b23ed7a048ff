// From an accepted program to its words and the plan of them: the blocks of each of its graphs turned into regions, these laid out as
// words over values, the values kept in registers and slots, and all finished as one program. The clauses of `compile` and of
// `compile_with` are the promise of the compiler (specs/Compiled.antt and CompiledWith.antt of vx_compiled); what holds between its
// steps stands in specs/Stages.antt.

ghost use Rattle.std.specs.Prelude.{◌≡◌, true, length, IfOk};
ghost use Rattle.vx_ast.specs.View as view;
ghost use Rattle.vx_flow.specs.Sound.{is_sound_flow};
ghost use Rattle.vx_lower.specs.FlowOf.{FlowOf};
ghost use Rattle.vx_compiled.specs.Compiled.{AreMapsOf, Compiled, all_in_slots, in_slots, slot_of};
ghost use Rattle.vx_compiled.specs.CompiledWith.{CompiledFrom, CompiledWith};
ghost use Rattle.vx_compile.specs.Stages.{AllBegin, AreFinished, AreInside, AreLayoutsOf, IsCompiledFlow, IsSmall, StageLaws};
ghost use Rattle.vx_compiled.specs.Sized.{Sized, all_blocks};

use crate::graphs::{planned_flow_of, planned_with};
use crate::laws::frames_keep_to_the_machine;
use crate::layouts::layouts_of;
use crate::ranges::numbers_fit;
use std::alloc::Global;
use vx_ast::typed::Typed;
use vx_base::laws::same_is_transitive;
use vx_base::listed::Listed;
use vx_base::outcome::NoMemory;
use vx_base::sizes::sum;
use vx_compiled::{CompiledProgram, FlowSize, SizedProgram};
use vx_flow::graph::{Flow, Graph};
use vx_frame::finish;
use vx_isa::laws::{any_timing_law, path_strict_law};
use vx_isa::program::WordProgram;
use vx_layout::laws::{drains_stay_brief, layouts_keep_the_meaning};
use vx_machine::Machine;
use vx_mixed::layout::VWords;
use vx_motion::laws::{blocks_mean_the_graph, replaced_programs_run_the_same};
use vx_profile::counts::Counts;
use vx_regs::map::{Kept, RegMap};
use vx_regs::registers;
use vx_report::Plan;
use vx_rewrite::FlowOptions;
use vx_target::finished::Finished;
use vx_tie::laws::{finished_programs_are_emitted, layouts_are_spaced};

/// Layouts that are finished as words.
#[derive(Drop)]
struct FinishedProgram {
    finished: Finished,
    spilled: u32,
}

/// The laws by which each stage does what the one before it does.
fn stages_do_the_same()
    ensures { StageLaws }
{
    same_is_transitive();
    blocks_mean_the_graph();
    replaced_programs_run_the_same();
    layouts_keep_the_meaning();
    drains_stay_brief();
    frames_keep_to_the_machine();
    finished_programs_are_emitted();
    layouts_are_spaced();
    path_strict_law();
    any_timing_law();
}

/// Where the values of each function are kept.
fn maps_of(alloc: Global, layouts: &[VWords], machine: &Machine) -> Result<Listed<RegMap>, NoMemory>
    requires { AreInside layouts.now }
    ensures { IfOk result (λ maps. AreMapsOf machine.now layouts.now maps) }
{
    let mut maps = Listed::new(alloc);
    for layout in layouts {
        maps.push(registers(alloc, layout, machine)?)?;
    }
    Ok(maps)
}

/// 1 for a slot.
fn slot_of(kept: &Kept) -> u32
    ensures { result ≡ slot_of kept.now }
{
    match kept {
        Kept::InRegister(_) => 0,
        Kept::InSlot(_) => 1,
        Kept::Nowhere => 0,
    }
}

/// How many values of a function are in slots.
#[tactic(auto, using(std::proofs::lemmas::List::Sums::sum_by_more))]
fn slots_in(values: &[Kept]) -> Result<u32, NoMemory>
    ensures { IfOk result (λ count. count ≡ in_slots values.now) }
{
    let mut count = 0;
    for kept in values {
        count = sum(count, slot_of(kept))?;
    }
    Ok(count)
}

/// How many values of all functions are in slots.
#[tactic(auto, using(std::proofs::lemmas::List::Sums::sum_by_more))]
fn all_slots_in(maps: &[RegMap]) -> Result<u32, NoMemory>
    ensures { IfOk result (λ count. count ≡ all_in_slots maps.now) }
{
    let mut count = 0;
    for map in maps {
        let more = slots_in(map.values.as_slice())?;
        count = sum(count, more)?;
    }
    Ok(count)
}

/// How many blocks graphs have.
#[tactic(auto, using(std::proofs::lemmas::List::Sums::sum_by_more))]
fn blocks_in(graphs: &[Graph]) -> Result<u32, NoMemory>
    ensures { IfOk result (λ count. count ≡ all_blocks graphs.now) }
{
    let mut count = 0;
    for graph in graphs {
        count = sum(count, graph.blocks.len() as u32)?;
    }
    Ok(count)
}

/// How large the graphs of a program are.
fn size_of(flow: &Flow) -> Result<FlowSize, NoMemory>
    ensures functions { IfOk result (λ size. size.functions ≡ length flow.now.functions) }
    ensures blocks { IfOk result (λ size. size.blocks ≡ all_blocks flow.now.functions) }
{
    let blocks = blocks_in(flow.functions.as_slice())?;
    Ok(FlowSize {
        functions: flow.functions.len() as u32,
        blocks,
    })
}

/// The words of layouts, with their values kept in registers and slots.
fn finished_of(
    alloc: Global,
    flow: &Flow,
    layouts: &[VWords],
    machine: &Machine,
) -> Result<FinishedProgram, NoMemory>
    requires sound { is_sound_flow flow.now ≡ true }
    requires small { IsSmall flow.now }
    requires layouts { AreLayoutsOf machine.now flow.now.functions layouts.now }
    ensures { IfOk result (λ x. AreFinished machine.now flow.now layouts.now x.finished x.spilled) }
{
    stages_do_the_same();
    machine.keeps_ranges();
    let maps = maps_of(alloc, layouts, machine)?;
    let spilled = all_slots_in(maps.as_slice())?;
    let finished = finish(alloc, layouts, maps.as_slice(), flow, machine)?;
    numbers_fit(&finished.program);
    Ok(FinishedProgram { finished, spilled })
}

/// The words of the graphs of a program, and how they were planned.
fn compiled_of(
    alloc: Global,
    flow: &Flow,
    counts: &Counts,
    machine: &Machine,
    growth: u32,
) -> Result<CompiledProgram, NoMemory>
    requires sound { is_sound_flow flow.now ≡ true }
    requires small { IsSmall flow.now }
    requires begin { AllBegin flow.now.functions }
    ensures { IfOk result (λ x. IsCompiledFlow machine.now counts.now growth flow.now x.words x.plan) }
{
    let laid = layouts_of(alloc, flow.functions.as_slice(), counts, machine, growth)?;
    let done = finished_of(alloc, flow, laid.layouts.as_slice(), machine)?;
    Ok(CompiledProgram {
        words: done.finished.program,
        plan: Plan {
            traces: laid.traces,
            places: done.finished.places,
            spilled: done.spilled,
            copies: laid.copies,
        },
    })
}

/// The words of graphs of an accepted program that are planned, and how they were planned.
pub fn compile_flow(
    alloc: Global,
    program: &Typed,
    flow: &Flow,
    counts: &Counts,
    machine: &Machine,
    growth: u32,
) -> Result<CompiledProgram, NoMemory>
    requires { FlowOf (view.program_of program.now.program) flow.now }
    ensures { IfOk result (λ x. CompiledFrom (view.program_of program.now.program) counts.now machine.now growth flow.now x.words x.plan) }
{
    stages_do_the_same();
    machine.keeps_ranges();
    let _ = program;
    let compiled = compiled_of(alloc, flow, counts, machine, growth)?;
    Ok(compiled)
}

/// What `compile` answers, and how large the graphs are.
pub fn compile_sized(
    alloc: Global,
    program: &Typed,
    counts: &Counts,
    machine: &Machine,
    growth: u32,
) -> Result<SizedProgram, NoMemory>
    ensures { IfOk result (λ x. Sized (view.program_of program.now.program) counts.now machine.now growth x.compiled.words x.compiled.plan x.size) }
{
    let flow = planned_flow_of(alloc, program, counts, machine)?;
    let size = size_of(&flow)?;
    let compiled = compile_flow(alloc, program, &flow, counts, machine, growth)?;
    Ok(SizedProgram { compiled, size })
}

/// The words of an accepted program for a machine, and how they were planned. Its traces are picked by counts of blocks and edges,
/// whatever these are; at most so many operations are copied onto the edges of splits and joins. `Err` comes only where memory
/// runs out.
pub fn compile(
    alloc: Global,
    program: &Typed,
    counts: &Counts,
    machine: &Machine,
    growth: u32,
) -> Result<CompiledProgram, NoMemory>
    ensures { IfOk result (λ x. Compiled (view.program_of program.now.program) counts.now machine.now growth x.words x.plan) }
{
    let sized = compile_sized(alloc, program, counts, machine, growth)?;
    Ok(sized.compiled)
}

/// The same, with calls inlined and diamonds converted as it is asked.
pub fn compile_with(
    alloc: Global,
    program: &Typed,
    counts: &Counts,
    machine: &Machine,
    growth: u32,
    options: FlowOptions,
) -> Result<CompiledProgram, NoMemory>
    ensures { IfOk result (λ x. CompiledWith (view.program_of program.now.program) counts.now machine.now growth options.inline options.select x.words x.plan) }
{
    let flow = planned_with(alloc, program, counts, machine, options)?;
    let compiled = compile_flow(alloc, program, &flow, counts, machine, growth)?;
    Ok(compiled)
}
