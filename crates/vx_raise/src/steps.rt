// The operations and splits of a row of blocks as the steps of a plan, and the delays between them (docs/COMPILING.md, "Delays and
// heights"). It is an estimate: two accesses of one array are taken to touch one word.

use crate::sketch::{Ground, Sketch};
use crate::units::{Unit, Units, is_first, is_observable, unit_of};
use std::alloc::Global;
use vx_base::arithmetic::Code;
use vx_base::outcome::NoMemory;
use vx_flow::graph::{ArrayId, BlockId, Exit, Graph, Op, Operand, Value};
use vx_flow::operands::{Reads, read_by, reads_three, written_by};

/// What a step does besides reading and writing values.
#[derive(Clone, Copy, PartialEq, Eq)]
pub(crate) enum Effect {
    Nothing,
    Loads(ArrayId),
    Stores(ArrayId),
    /// It can be observed.
    Shows,
    /// It leaves the row to a block.
    Leaves(BlockId),
}

/// A step of a row of blocks.
#[derive(Clone, Copy)]
pub(crate) struct Step {
    pub read: Reads,
    pub written: Option<Value>,
    pub latency: u32,
    pub unit: Unit,
    pub is_first: bool,
    pub effect: Effect,
    /// The place of its block in the row, and its own there.
    pub row: usize,
    pub place: usize,
    /// How many joins stand above it.
    pub joins: u32,
}

fn effect_of(op: &Op) -> Effect {
    match op {
        Op::Load { array, .. } => Effect::Loads(*array),
        Op::Store { array, .. } => Effect::Stores(*array),
        _ => {
            if is_observable(op) {
                Effect::Shows
            } else {
                Effect::Nothing
            }
        }
    }
}

fn step_of(units: &Units, op: &Op, read: Reads, row: usize, place: usize, joins: u32) -> Step {
    Step {
        read,
        written: written_by(op),
        latency: units.latency(op),
        unit: unit_of(op),
        is_first: is_first(op),
        effect: effect_of(op),
        row,
        place,
        joins,
    }
}

/// What an operation at a place of a block reads once moves before it there are read where they were moved from, as they are in the end;
/// on one cluster, since elsewhere such a move may be what brings a value to another.
fn read_by_step(units: &Units, ops: &[Op], place: usize, op: &Op) -> Reads {
    let read = read_by(op);
    if !units.is_one_cluster() {
        return read;
    }
    reads_three(
        source_of(ops, place, read.first),
        source_of(ops, place, read.second),
        source_of(ops, place, read.third),
    )
}

/// The value that holds what a value holds before a place of a block: that from which it was moved, or itself.
fn source_of(ops: &[Op], place: usize, read: Option<Value>) -> Option<Value> {
    let value = read?;
    let mut source = value;
    for (index, op) in ops.iter().enumerate() {
        if index < place {
            source = source_behind(op, value, source);
        }
    }
    Some(source)
}

/// The value that holds what a value holds behind an operation, before which it was the source.
fn source_behind(op: &Op, value: Value, source: Value) -> Value {
    if has(written_by(op), value) {
        match moved_from(op) {
            Some(from) => from,
            None => value,
        }
    } else if has(written_by(op), source) {
        value
    } else {
        source
    }
}

/// The value that a move reads.
fn moved_from(op: &Op) -> Option<Value> {
    match op {
        Op::Compute {
            code: Code::Mov,
            left: Operand::Held(from),
            ..
        } => Some(*from),
        _ => None,
    }
}

fn split_of(test: Value, to: BlockId, row: usize, place: usize, joins: u32) -> Step {
    Step {
        read: reads_three(Some(test), None, None),
        written: None,
        latency: 0,
        unit: Unit::Slot,
        is_first: true,
        effect: Effect::Leaves(to),
        row,
        place,
        joins,
    }
}

/// The steps of a row of blocks, each of which leads to the next.
pub(crate) fn steps_of(
    alloc: Global,
    ground: &Ground,
    sketch: &Sketch,
    row: &[BlockId],
) -> Result<Vec<Step>, NoMemory> {
    let mut steps = Vec::new(alloc);
    let mut joins = 0u32;
    for (index, block) in row.iter().enumerate() {
        if index > 0 && sketch.leading_to(*block).len() > 1 {
            joins = joins.saturating_add(1);
        }
        for (place, op) in sketch.ops_at(*block).iter().enumerate() {
            let read = read_by_step(ground.units, sketch.ops_at(*block), place, op);
            steps.push(step_of(ground.units, op, read, index, place, joins))?;
        }
        let place = sketch.ops_at(*block).len();
        match off_row(ground.graph, *block, block_at(row, index.saturating_add(1))) {
            Some(off) => steps.push(split_of(off.test, off.to, index, place, joins))?,
            None => {}
        }
    }
    Ok(steps)
}

/// The way out of a block that does not lead to the next one of the row.
#[derive(Clone, Copy)]
struct Off {
    test: Value,
    to: BlockId,
}

pub(crate) fn block_at(row: &[BlockId], index: usize) -> Option<BlockId> {
    match row.get(index) {
        Some(block) => Some(*block),
        None => None,
    }
}

fn off_row(graph: &Graph, block: BlockId, next: Option<BlockId>) -> Option<Off> {
    match graph.blocks.as_slice().get(block as usize) {
        Some(found) => match &found.exit {
            Exit::Split { test, yes, no } => {
                let to = if has(next, *yes) { *no } else { *yes };
                Some(Off { test: *test, to })
            }
            _ => None,
        },
        None => None,
    }
}

/// Whether there is a value, and it is this one.
pub(crate) fn has(value: Option<Value>, other: Value) -> bool {
    match value {
        Some(value) => value == other,
        None => false,
    }
}

fn reads_value(read: &Reads, value: Value) -> bool {
    has(read.first, value) || has(read.second, value) || has(read.third, value)
}

/// By how many words the second step has to stand behind the first, which stands above it; none where it may pass it.
pub(crate) fn delay_of(
    ground: &Ground,
    sketch: &Sketch,
    first: &Step,
    second: &Step,
) -> Option<u32> {
    let by_values = delay_by_values(first, second);
    let by_effects = delay_by_effects(ground, sketch, first, second);
    match (by_values, by_effects) {
        (Some(one), Some(other)) => Some(one.max(other)),
        (Some(one), None) => Some(one),
        (None, other) => other,
    }
}

fn delay_by_values(first: &Step, second: &Step) -> Option<u32> {
    match first.written {
        Some(value) => {
            if reads_value(&second.read, value) || has(second.written, value) {
                return Some(first.latency);
            }
        }
        None => {}
    }
    match second.written {
        Some(value) => {
            if reads_value(&first.read, value) {
                Some(0)
            } else {
                None
            }
        }
        None => None,
    }
}

fn delay_by_effects(ground: &Ground, sketch: &Sketch, first: &Step, second: &Step) -> Option<u32> {
    if first.joins < second.joins && is_seen(second) {
        return Some(1);
    }
    match (first.effect, second.effect) {
        (Effect::Stores(array), Effect::Loads(other)) => some_if(array == other, 1),
        (Effect::Stores(array), Effect::Stores(other)) => some_if(array == other, 1),
        (Effect::Loads(array), Effect::Stores(other)) => some_if(array == other, 0),
        (Effect::Shows, Effect::Shows) => Some(1),
        (Effect::Leaves(_), Effect::Leaves(_)) => Some(ground.units.splits_apart()),
        (Effect::Leaves(_), Effect::Stores(_)) => Some(1),
        (Effect::Leaves(_), Effect::Shows) => Some(1),
        (Effect::Shows, Effect::Leaves(_)) => Some(0),
        (Effect::Leaves(to), _) => behind_split(ground, sketch, to, second),
        _ => None,
    }
}

fn some_if(is_so: bool, delay: u32) -> Option<u32> {
    if is_so { Some(delay) } else { None }
}

fn is_seen(step: &Step) -> bool {
    match step.effect {
        Effect::Shows | Effect::Leaves(_) => true,
        _ => false,
    }
}

fn behind_split(ground: &Ground, sketch: &Sketch, to: BlockId, second: &Step) -> Option<u32> {
    match second.written {
        Some(value) => {
            if sketch.is_live(ground, to, value) {
                Some(1)
            } else {
                None
            }
        }
        None => None,
    }
}
