// The graphs of a program: those whose blocks a profile counts, and those that are planned, with calls inlined and diamonds converted as
// it is asked. What the passes before them promise, that graphs of a program stay so, is all that is known of them but this.

ghost use Rattle.std.specs.Prelude.{◌≡◌, true, IfOk};
ghost use Rattle.vx_ast.specs.Tree.{Program};
ghost use Rattle.vx_ast.specs.View as view;
ghost use Rattle.vx_flow.specs.Sound.{is_sound_flow};
ghost use Rattle.vx_lower.specs.FlowOf.{FlowOf};
ghost use Rattle.vx_rewrite.specs.Rewritten.{Rewritten};

use crate::written_again::write_again;
use std::alloc::Global;
use vx_ast::typed::Typed;
use vx_base::outcome::NoMemory;
use vx_clean::clean;
use vx_flow::graph::Flow;
use vx_hoist::{Hoisted, advance, hoist};
use vx_lower::lower;
use vx_machine::Machine;
use vx_narrow::{narrow, narrow_inside};
use vx_profile::counts::Counts;
use vx_raise::{Units, raise};
use vx_rename::{Room, rename};
use vx_rewrite::{FlowOptions, rewritten};
use vx_thread::thread;

/// The graphs of a program from which its words are made: lowered and cleaned, then narrowed by what is known of values, and cleaned
/// once more; with edges that go straight past tests which they decide; with operations put before the loops that do them in each turn,
/// and where there are such narrowed and cleaned again; and so once more, under names of their own, where a block of a graph with a loop
/// writes one value thrice.
pub fn flow_of(alloc: Global, program: &Typed) -> Result<Flow, NoMemory>
    ensures { IfOk result (λ flow. FlowOf (view.program_of program.now.program) flow) }
{
    let lowered = lower(alloc, program)?;
    let cleaned = clean(alloc, lowered)?;
    let narrowed = narrow(alloc, cleaned)?;
    let once = clean(alloc, narrowed)?;
    let threaded = thread(alloc, once)?;
    let hoisted = hoist(alloc, threaded)?;
    narrowed_again(alloc, hoisted)
}

/// The graphs narrowed and cleaned again where operations were put before loops, and once more where a block writes one value again and
/// again.
fn narrowed_again(alloc: Global, hoisted: Hoisted) -> Result<Flow, NoMemory>
    requires { is_sound_flow hoisted.flow ≡ true }
    ensures { IfOk result (λ flow. (p : Program) → FlowOf p hoisted.flow → FlowOf p flow) }
{
    let flow = narrowed_if(alloc, hoisted.flow, hoisted.has_more)?;
    let again = write_again(alloc, &flow)?;
    if again {
        narrowed_apart(alloc, flow)
    } else {
        Ok(flow)
    }
}

/// The graphs narrowed and cleaned where that is wanted.
fn narrowed_if(alloc: Global, flow: Flow, wanted: bool) -> Result<Flow, NoMemory>
    requires { is_sound_flow flow ≡ true }
    ensures sound { IfOk result (λ narrowed. is_sound_flow narrowed ≡ true) }
    ensures flow { IfOk result (λ narrowed. (p : Program) → FlowOf p flow → FlowOf p narrowed) }
{
    if !wanted {
        return Ok(flow);
    }
    let narrowed = narrow(alloc, flow)?;
    clean(alloc, narrowed)
}

/// Names enough for every value.
const ENOUGH_NAMES: Room = Room {
    general: u32::MAX,
    branch: u32::MAX,
};

/// The graphs narrowed and cleaned once what is written again has names of its own: so the turns of an unrolled loop do not lose what is
/// known of the counter and of what was computed from it.
fn narrowed_apart(alloc: Global, flow: Flow) -> Result<Flow, NoMemory>
    requires { is_sound_flow flow ≡ true }
    ensures { IfOk result (λ narrowed. (p : Program) → FlowOf p flow → FlowOf p narrowed) }
{
    let apart = rename(alloc, flow, ENOUGH_NAMES)?;
    let narrowed = narrow(alloc, apart)?;
    clean(alloc, narrowed)
}

/// The numbers of a machine by which raising estimates turns. Of the registers those are left out that words need besides values.
fn units_of(machine: &Machine) -> Units {
    let issue = machine.issue();
    let clusters = machine.clusters();
    let kept = issue.saturating_mul(2).saturating_add(3);
    Units {
        slots: issue.saturating_mul(clusters),
        first_slots: issue,
        branches: machine.branches(),
        alus: machine.alus().saturating_mul(clusters),
        multipliers: machine.multipliers().saturating_mul(clusters),
        memory_units: machine.memory_units().saturating_mul(clusters),
        registers: machine.registers().saturating_sub(kept),
        branch_registers: machine.branch_registers().saturating_sub(issue),
        latency_alu: machine.latency_alu(),
        latency_compare: machine.latency_compare(),
        latency_multiply: machine.latency_multiply(),
        latency_load: machine.latency_load(),
        latency_divide: machine.latency_divide(),
    }
}

/// The fewest registers for values with which operations are raised. With fewer the values of a second turn of a loop would take the
/// place of those of this one.
const ENOUGH_TO_RAISE: u32 = 16;

/// The graphs with operations raised over the bounds of blocks, where the machine has registers for more than one turn of a loop: counters
/// are computed early first, and what came to a block from two others is made once there. On one cluster they are narrowed then and
/// raised again, since a turn need not make what the block before it made.
pub fn raised_for(
    alloc: Global,
    flow: Flow,
    counts: &Counts,
    machine: &Machine,
) -> Result<Flow, NoMemory>
    requires { is_sound_flow flow ≡ true }
    ensures sound { IfOk result (λ raised. is_sound_flow raised ≡ true) }
    ensures flow { IfOk result (λ raised. (p : Program) → FlowOf p flow → FlowOf p raised) }
{
    let units = units_of(machine);
    if units.registers < ENOUGH_TO_RAISE {
        return Ok(flow);
    }
    let advanced = advanced_for(alloc, flow, &units)?;
    let once = raised_inside(alloc, advanced, counts, &units)?;
    if machine.clusters() > 1 {
        return Ok(once);
    }
    let narrowed = narrow(alloc, once)?;
    raised_inside(alloc, narrowed, counts, &units)
}

/// The graphs with operations raised, and narrowed inside of blocks behind that: what reads no move any more may be raised further.
fn raised_inside(
    alloc: Global,
    flow: Flow,
    counts: &Counts,
    units: &Units,
) -> Result<Flow, NoMemory>
    requires { is_sound_flow flow ≡ true }
    ensures sound { IfOk result (λ raised. is_sound_flow raised ≡ true) }
    ensures flow { IfOk result (λ raised. (p : Program) → FlowOf p flow → FlowOf p raised) }
{
    let raised = raise(alloc, flow, counts, units)?;
    narrow_inside(alloc, raised)
}

/// The graphs with counters of loops computed early, where a word has a slot for what that costs, and narrowed where there are such, so
/// that they are read. Blocks keep their numbers.
fn advanced_for(alloc: Global, flow: Flow, units: &Units) -> Result<Flow, NoMemory>
    requires { is_sound_flow flow ≡ true }
    ensures sound { IfOk result (λ narrowed. is_sound_flow narrowed ≡ true) }
    ensures flow { IfOk result (λ narrowed. (p : Program) → FlowOf p flow → FlowOf p narrowed) }
{
    if units.first_slots < 2 {
        return Ok(flow);
    }
    let advanced = advance(alloc, flow)?;
    if advanced.has_more {
        narrow(alloc, advanced.flow)
    } else {
        Ok(advanced.flow)
    }
}

/// How many registers there are for the values of a graph: those of one cluster, and half of those of each other, since a value has
/// copies there. What is kept of a file stands in `allocatable` (vx_regs, specs/Mapped.antt).
fn room_of(machine: &Machine) -> Room {
    let issue = machine.issue();
    let general = machine
        .registers()
        .saturating_sub(issue.saturating_mul(2).saturating_add(3));
    Room {
        general: general.saturating_mul(machine.clusters().saturating_add(1)) / 2,
        branch: machine.branch_registers().saturating_sub(issue),
    }
}

/// The graphs of a program with calls inlined and diamonds converted as it is asked, by counts of their blocks. What that leaves to be
/// narrowed and cleaned is, but a block that a profile counts keeps its number: then graphs are not cleaned.
fn asked_flow_of(
    alloc: Global,
    program: &Typed,
    counts: &Counts,
    options: FlowOptions,
) -> Result<Flow, NoMemory>
    ensures rewritten { IfOk result (λ flow. Rewritten (view.program_of program.now.program) options.inline options.select flow) }
    ensures flow { IfOk result (λ flow. FlowOf (view.program_of program.now.program) flow) }
{
    let flow = flow_of(alloc, program)?;
    let asked = rewritten(alloc, program, flow, counts, options)?;
    let again = cleaned_again(alloc, asked, counts, options)?;
    rewritten(alloc, program, again, counts, options)
}

/// Blocks of the graphs are counted: the first one of the main function is entered in every run.
fn are_counted(flow: &Flow, counts: &Counts) -> bool {
    counts.of_block(flow.main, 0) > 0
}

/// The graphs as far as they can be narrowed and cleaned again once something was rewritten.
fn cleaned_again(
    alloc: Global,
    flow: Flow,
    counts: &Counts,
    options: FlowOptions,
) -> Result<Flow, NoMemory>
    requires { is_sound_flow flow ≡ true }
    ensures sound { IfOk result (λ again. is_sound_flow again ≡ true) }
    ensures flow { IfOk result (λ again. (p : Program) → FlowOf p flow → FlowOf p again) }
{
    if options.inline.is_some() && !are_counted(&flow, counts) {
        let cleaned = clean(alloc, flow)?;
        let narrowed = narrow(alloc, cleaned)?;
        return clean(alloc, narrowed);
    }
    if options.inline.is_some() || options.select.is_some() {
        return narrow(alloc, flow);
    }
    Ok(flow)
}

/// The graphs of a program whose blocks a profile counts, with diamonds converted as it is asked. Blocks have the numbers that they
/// have where these graphs are planned.
pub fn counted_flow_of(
    alloc: Global,
    program: &Typed,
    options: FlowOptions,
) -> Result<Flow, NoMemory>
    ensures rewritten { IfOk result (λ flow. Rewritten (view.program_of program.now.program) options.inline options.select flow) }
    ensures flow { IfOk result (λ flow. FlowOf (view.program_of program.now.program) flow) }
{
    let counts = Counts::new(alloc);
    asked_flow_of(alloc, program, &counts, options)
}

/// The graphs that are planned: those of `flow_of`, with calls inlined and diamonds converted as it is asked; block by block, with
/// operations raised over the bounds of blocks, and under names that values share, so that there are no more of them than registers
/// where no more values are live at once. What these passes bring forth is rewritten too.
pub fn planned_with(
    alloc: Global,
    program: &Typed,
    counts: &Counts,
    machine: &Machine,
    options: FlowOptions,
) -> Result<Flow, NoMemory>
    ensures rewritten { IfOk result (λ flow. Rewritten (view.program_of program.now.program) options.inline options.select flow) }
    ensures flow { IfOk result (λ flow. FlowOf (view.program_of program.now.program) flow) }
{
    let flow = asked_flow_of(alloc, program, counts, options)?;
    let raised = raised_for(alloc, flow, counts, machine)?;
    let renamed = rename(alloc, raised, room_of(machine))?;
    rewritten(alloc, program, renamed, counts, options)
}

/// The graphs that are planned where nothing is asked.
pub fn planned_flow_of(
    alloc: Global,
    program: &Typed,
    counts: &Counts,
    machine: &Machine,
) -> Result<Flow, NoMemory>
    ensures { IfOk result (λ flow. FlowOf (view.program_of program.now.program) flow) }
{
    let options = FlowOptions {
        inline: None,
        select: None,
    };
    planned_with(alloc, program, counts, machine, options)
}
