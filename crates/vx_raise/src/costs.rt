// What the turns of a loop cost by an estimate of their plan: the cycles of all turns, of the ways out of them and of the blocks that
// lead to them, each as often as it is passed.

use crate::plan::{Plan, cycles_to, number_at, plan_of};
use crate::sketch::{Ground, Sketch, as_number};
use crate::steps::{Effect, Step, steps_of};
use crate::turns::{Stop, Turn};
use std::alloc::Global;
use vx_base::outcome::NoMemory;
use vx_flow::graph::BlockId;

/// The most steps at the end of a block off the path whose plan is estimated.
const MOST_STEPS: usize = 40;

/// Costs are counted in parts of cycles.
const PARTS: u64 = 64;

/// A trace of blocks of a turn, from the first place to before the last, and its plan.
#[derive(Clone, Copy)]
struct Trace<'a> {
    steps: &'a [Step],
    plan: &'a Plan,
    start: usize,
    end: usize,
}

/// The cycles that the turns of a loop take in all, trace by trace, in parts.
pub(crate) fn cost_of(
    alloc: Global,
    ground: &Ground,
    sketch: &Sketch,
    turn: &Turn,
) -> Result<u64, NoMemory> {
    let mut cost = 0u64;
    let mut start = 0usize;
    for index in 0..turn.path.len() {
        let end = index.saturating_add(1);
        if begins_at(turn.stops.as_slice(), end) {
            let more = cost_of_trace(alloc, ground, sketch, turn, start, end)?;
            cost = cost.saturating_add(more);
            start = end;
        }
    }
    Ok(cost)
}

/// The cycles of steps, with a word for each of the first of many, which are not looked at.
fn cycles_of_steps(
    alloc: Global,
    ground: &Ground,
    sketch: &Sketch,
    steps: &[Step],
) -> Result<u32, NoMemory> {
    let first = steps.len().saturating_sub(MOST_STEPS);
    let plan = plan_of(alloc, ground, sketch, last_of(steps, first))?;
    Ok(plan.cycles.saturating_add(as_number(first)))
}

/// Whether a trace begins at a block of the path, or the path ends before it.
fn begins_at(stops: &[Stop], index: usize) -> bool {
    match stops.get(index) {
        Some(stop) => stop.begins,
        None => true,
    }
}

fn part_of(path: &[BlockId], start: usize, end: usize) -> &[BlockId] {
    if start <= end && end <= path.len() {
        &path[start..end]
    } else {
        &[]
    }
}

fn cost_of_trace(
    alloc: Global,
    ground: &Ground,
    sketch: &Sketch,
    turn: &Turn,
    start: usize,
    end: usize,
) -> Result<u64, NoMemory> {
    let steps = steps_of(
        alloc,
        ground,
        sketch,
        part_of(turn.path.as_slice(), start, end),
    )?;
    let plan = plan_of(alloc, ground, sketch, steps.as_slice())?;
    let trace = Trace {
        steps: steps.as_slice(),
        plan: &plan,
        start,
        end,
    };
    let others = cost_of_others(alloc, ground, sketch, &trace, turn.others.as_slice())?;
    let outs = cost_of_outs(alloc, ground, sketch, &trace, turn.outs.as_slice())?;
    let beside = others.saturating_add(outs);
    Ok(cost_of_steps(&trace, turn.stops.as_slice()).saturating_add(beside))
}

fn cost_of_steps(trace: &Trace, stops: &[Stop]) -> u64 {
    let mut left = match stops.get(trace.start) {
        Some(stop) => stop.weight,
        None => 0,
    };
    let words = trace.plan.words.as_slice();
    let mut cost = 0u64;
    for (place, step) in trace.steps.iter().enumerate() {
        let times = leaves_at(step, stops, trace.start).min(left);
        if times > 0 {
            let cycles = cycles_to(trace.steps, words, number_at(words, place));
            cost = cost.saturating_add(parts(times, cycles));
            left = left.saturating_sub(times);
        }
    }
    cost.saturating_add(left.saturating_mul(parts_of_turn(trace.plan)))
}

/// The parts of so many cycles, so many times.
fn parts(times: u64, cycles: u32) -> u64 {
    times.saturating_mul(cycles as u64).saturating_mul(PARTS)
}

/// The parts of a turn. Of two that take as long the one is less of which the way on would be as short in a word of its own: a step
/// towards it may gain nothing yet.
fn parts_of_turn(plan: &Plan) -> u64 {
    let cycles = plan.cycles as u64;
    let apart = plan.apart as u64;
    cycles.saturating_mul(PARTS - 1).saturating_add(apart)
}

/// How often the path is left at a step.
fn leaves_at(step: &Step, stops: &[Stop], start: usize) -> u64 {
    match step.effect {
        Effect::Leaves(_) => match stops.get(start.saturating_add(step.row)) {
            Some(stop) => stop.leaves,
            None => 0,
        },
        _ => 0,
    }
}

/// The blocks beside that lead to one of a trace. Behind each the trace is passed from the word on where it is entered, and what stands
/// above that but below in the blocks is done before.
fn cost_of_others(
    alloc: Global,
    ground: &Ground,
    sketch: &Sketch,
    trace: &Trace,
    others: &[Stop],
) -> Result<u64, NoMemory> {
    let mut cost = 0u64;
    for stop in others {
        if trace.start <= stop.row && stop.row < trace.end {
            let row = stop.row.saturating_sub(trace.start);
            let entered = entered_at(trace, row);
            let own = cycles_of_block(alloc, ground, sketch, trace, stop.block, row, entered)?;
            let rest = if row > 0 {
                trace.plan.cycles.saturating_sub(entered)
            } else {
                0
            };
            let cycles = own.saturating_add(rest);
            cost = cost.saturating_add(parts(stop.weight, cycles));
        }
    }
    Ok(cost)
}

/// The blocks to which a trace leads besides, each behind what stands above the split in the blocks but below it in words.
fn cost_of_outs(
    alloc: Global,
    ground: &Ground,
    sketch: &Sketch,
    trace: &Trace,
    outs: &[Stop],
) -> Result<u64, NoMemory> {
    let mut cost = 0u64;
    for stop in outs {
        if trace.start <= stop.row && stop.row < trace.end {
            let row = stop.row.saturating_sub(trace.start);
            let mut steps = left_over(alloc, trace, row)?;
            let own = steps_of(alloc, ground, sketch, &[stop.block])?;
            steps.extend_from_slice(own.as_slice())?;
            let cycles = cycles_of_steps(alloc, ground, sketch, steps.as_slice())?;
            cost = cost.saturating_add(parts(stop.weight, cycles));
        }
    }
    Ok(cost)
}

/// What stands above the split of a block, and in a later word.
fn left_over(alloc: Global, trace: &Trace, row: usize) -> Result<Vec<Step>, NoMemory> {
    let split = split_word(trace, row);
    let mut steps = Vec::new(alloc);
    for (place, step) in trace.steps.iter().enumerate() {
        if step.row <= row && number_at(trace.plan.words.as_slice(), place) > split {
            steps.push(*step)?;
        }
    }
    Ok(steps)
}

/// The word of the split of a block.
fn split_word(trace: &Trace, row: usize) -> u32 {
    for (place, step) in trace.steps.iter().enumerate() {
        if step.row == row {
            match step.effect {
                Effect::Leaves(_) => return number_at(trace.plan.words.as_slice(), place),
                _ => {}
            }
        }
    }
    u32::MAX
}

/// The first word behind all that stands in the blocks before a place.
fn entered_at(trace: &Trace, row: usize) -> u32 {
    let mut entered = 0u32;
    for (place, step) in trace.steps.iter().enumerate() {
        if step.row < row {
            let word = number_at(trace.plan.words.as_slice(), place);
            entered = entered.max(word.saturating_add(1));
        }
    }
    entered
}

fn last_of(steps: &[Step], first: usize) -> &[Step] {
    if first <= steps.len() {
        &steps[first..]
    } else {
        &[]
    }
}

/// The cycles of a block by itself and of what is copied behind it.
fn cycles_of_block(
    alloc: Global,
    ground: &Ground,
    sketch: &Sketch,
    trace: &Trace,
    block: BlockId,
    row: usize,
    entered: u32,
) -> Result<u32, NoMemory> {
    let single = [block];
    let mut steps = steps_of(alloc, ground, sketch, &single)?;
    for (place, step) in trace.steps.iter().enumerate() {
        if step.row >= row && number_at(trace.plan.words.as_slice(), place) < entered {
            steps.push(*step)?;
        }
    }
    cycles_of_steps(alloc, ground, sketch, steps.as_slice())
}
