// The graphs of a source as they are lowered, as they are cleaned, as they are narrowed and cleaned once more, and as they are with
// operations put before loops, narrowed and cleaned again: how many blocks and operations stand in them, and how many a run with an
// empty input passes and does within 100,000,000 blocks. Behind the line with the number of functions there is a line for each
// state, with these four numbers.

ghost use Rattle.std.specs.Prelude.{◌≡◌, true};
ghost use Rattle.vx_flow.specs.Sound.{is_sound_flow};

use crate::operations::{Work, counted};
use crate::result::Ended;
use crate::source::program_of;
use std::alloc::Global;
use vx_ast::typed::Typed;
use vx_base::outcome::NoMemory;
use vx_clean::clean;
use vx_flow::graph::Flow;
use vx_hoist::{Hoisted, hoist};
use vx_lower::lower;
use vx_narrow::narrow;

/// The graphs of a program in one state.
#[derive(Clone, Copy)]
struct State {
    /// The functions that they have.
    functions: usize,
    /// The blocks in them.
    blocks: u64,
    /// The operations in these blocks.
    operations: u64,
    /// What a run of them does.
    work: Work,
}

/// The graphs of a program in all states.
#[derive(Clone, Copy)]
struct States {
    lowered: State,
    cleaned: State,
    narrowed: State,
    hoisted: State,
}

pub(crate) fn measure(rt: &HostRuntime, name: &str) -> Ended {
    match program_of(rt, name) {
        Ok(program) => told(rt, states_of(rt.alloc(), &program)),
        Err(ended) => ended,
    }
}

fn told(rt: &HostRuntime, answer: Result<States, NoMemory>) -> Ended {
    match answer {
        Ok(states) => put(rt, states),
        Err(NoMemory) => Ended::NoMemory,
    }
}

/// Puts the lines of all states.
fn put(rt: &HostRuntime, states: States) -> Ended {
    if !are_put(rt, states) {
        Ended::NotWritten
    } else if states.hoisted.work.complete {
        Ended::Done
    } else {
        Ended::WentOn
    }
}

/// Puts the number of functions and the line of each state. False where one is not written.
fn are_put(rt: &HostRuntime, states: States) -> bool {
    println!(rt; "functions {}", states.lowered.functions).is_ok()
        && is_put(rt, "lowered", states.lowered)
        && is_put(rt, "cleaned", states.cleaned)
        && is_put(rt, "narrowed", states.narrowed)
        && is_put(rt, "hoisted", states.hoisted)
}

/// Puts the line of a state. False where it is not written.
fn is_put(rt: &HostRuntime, name: &str, state: State) -> bool {
    println!(rt;
        "{name} {} {} {} {}",
        state.blocks, state.operations, state.work.blocks, state.work.operations
    )
    .is_ok()
}

/// The graphs of a program in all states, as `compile` makes them.
fn states_of(alloc: Global, program: &Typed) -> Result<States, NoMemory> {
    let flow = lower(alloc, program)?;
    let lowered = state_of(alloc, &flow)?;
    let flow = clean(alloc, flow)?;
    let cleaned = state_of(alloc, &flow)?;
    let flow = clean(alloc, narrow(alloc, flow)?)?;
    let narrowed = state_of(alloc, &flow)?;
    let flow = narrowed_again(alloc, hoist(alloc, flow)?)?;
    let hoisted = state_of(alloc, &flow)?;
    Ok(States {
        lowered,
        cleaned,
        narrowed,
        hoisted,
    })
}

/// The graphs narrowed and cleaned again where operations were put before loops.
fn narrowed_again(alloc: Global, hoisted: Hoisted) -> Result<Flow, NoMemory>
    requires { is_sound_flow hoisted.flow ≡ true }
{
    if !hoisted.has_more {
        return Ok(hoisted.flow);
    }
    clean(alloc, narrow(alloc, hoisted.flow)?)
}

fn state_of(alloc: Global, flow: &Flow) -> Result<State, NoMemory> {
    let work = counted(alloc, flow)?;
    Ok(State {
        functions: flow.functions.len(),
        blocks: blocks_in(flow),
        operations: operations_in(flow),
        work,
    })
}

/// The blocks of all functions.
fn blocks_in(flow: &Flow) -> u64 {
    let mut count: u64 = 0;
    for graph in flow.functions.as_slice() {
        count = count.saturating_add(graph.blocks.len() as u64);
    }
    count
}

/// The operations in the blocks of all functions.
fn operations_in(flow: &Flow) -> u64 {
    let mut count: u64 = 0;
    for graph in flow.functions.as_slice() {
        for block in graph.blocks.as_slice() {
            count = count.saturating_add(block.ops.len() as u64);
        }
    }
    count
}
