// A trace for measuring, the same each time: turns of 16 operations, as a loop has them that is unrolled. Each turn adds 1 to
// its index, reads and writes two arrays at places `index + k` and `4 * index + k`, computes, compares, and may leave.

use std::alloc::Global;
use vx_base::arithmetic::{Code, Compare};
use vx_base::listed::Listed;
use vx_base::outcome::NoMemory;
use vx_flow::graph::{Array, Edge, Op, Operand, Value};
use vx_flow::trace::{Join, Trace, TraceOp};

/// How many operations a turn has.
const TURN: u32 = 16;

/// How many values are written above the trace. The operation at place 0 writes the first value behind them.
const GIVEN: u32 = 16;

/// The value that is the index.
const INDEX: Value = 0;

/// The operations of a turn whose results later turns read.
const RESULTS: [u32; 6] = [1, 3, 4, 5, 9, 10];

/// How many values are live where a split leaves: four given ones, and six results of its turn.
const LIVE: u32 = 10;

/// A trace of so many operations.
pub(crate) fn trace(alloc: Global, count: u32) -> Result<Trace, NoMemory> {
    Ok(Trace {
        function: 0,
        blocks: blocks(alloc)?,
        ops: ops(alloc, count)?,
        fixed: free_of(alloc, count)?,
        joins: joins(alloc, count)?,
        values: count.saturating_add(GIVEN),
        arrays: arrays(alloc)?,
    })
}

fn blocks(alloc: Global) -> Result<Listed<u32>, NoMemory> {
    let mut blocks = Listed::new(alloc);
    blocks.push(0)?;
    Ok(blocks)
}

fn ops(alloc: Global, count: u32) -> Result<Listed<TraceOp>, NoMemory> {
    let mut ops = Listed::new(alloc);
    for place in 0..count {
        ops.push(op(alloc, place)?)?;
    }
    Ok(ops)
}

/// So many operations without a cluster.
fn free_of(alloc: Global, count: u32) -> Result<Listed<Option<u32>>, NoMemory> {
    let mut free = Listed::new(alloc);
    for _ in 0..count {
        free.push(None)?;
    }
    Ok(free)
}

/// Two joins, behind a third of the operations and behind two thirds.
fn joins(alloc: Global, count: u32) -> Result<Listed<Join>, NoMemory> {
    let third = count / 3;
    let mut joins = Listed::new(alloc);
    joins.push(join(alloc, third, 1)?)?;
    joins.push(join(alloc, third + third, 2)?)?;
    Ok(joins)
}

fn join(alloc: Global, place: u32, block: u32) -> Result<Join, NoMemory> {
    let mut edges = Listed::new(alloc);
    edges.push(Edge {
        from: 1000,
        to: block,
    })?;
    Ok(Join {
        place,
        block,
        edges,
    })
}

fn arrays(alloc: Global) -> Result<Listed<Array>, NoMemory> {
    let mut arrays = Listed::new(alloc);
    for named in 0..2 {
        arrays.push(Array {
            words: 4096,
            global: true,
            named,
            base: None,
        })?;
    }
    Ok(arrays)
}

/// The operation at a place.
fn op(alloc: Global, place: u32) -> Result<TraceOp, NoMemory> {
    if place % TURN == TURN - 1 {
        split(alloc, place)
    } else {
        Ok(TraceOp::Plain(plain(place, place % TURN)))
    }
}

fn split(alloc: Global, place: u32) -> Result<TraceOp, NoMemory> {
    let mut live = Listed::new(alloc);
    for number in 0..LIVE {
        live.push(live_value(place / TURN, number))?;
    }
    Ok(TraceOp::Split {
        test: value_of(place.wrapping_sub(1)),
        leaves_when: false,
        edge: Edge {
            from: place / TURN,
            to: 1000,
        },
        live,
    })
}

fn live_value(turn: u32, number: u32) -> Value {
    if number < 4 {
        number
    } else {
        result_of(turn, number)
    }
}

/// The value that the operation at a place writes.
fn value_of(place: u32) -> Value {
    GIVEN.wrapping_add(place)
}

/// One of the results of a turn.
fn result_of(turn: u32, number: u32) -> Value {
    value_of(
        turn.wrapping_mul(TURN)
            .wrapping_add(RESULTS[number as usize % 6]),
    )
}

/// A result of one of the four turns above that of a place, or a value that was written above the trace.
fn earlier(place: u32, number: u32) -> Operand {
    let turn = place / TURN;
    let back = 1 + place.wrapping_mul(7).wrapping_add(number) % 4;
    if back <= turn {
        Operand::Held(result_of(turn - back, place.wrapping_add(number)))
    } else {
        Operand::Held(number % GIVEN)
    }
}

/// The operation at a place that is no split.
fn plain(place: u32, step: u32) -> Op {
    let to = value_of(place);
    let before = Operand::Held(value_of(place.wrapping_sub(1)));
    match step {
        0 => sum(INDEX, Operand::Held(INDEX), Operand::Number(1)),
        1 => sum(to, Operand::Held(INDEX), offset(place)),
        2 | 8 => place_in(to, array_of(place), before),
        3 | 9 => load(to, array_of(place), before),
        4 => product(to, before, earlier(place, 3)),
        5 => sum(to, before, earlier(place, 5)),
        6 => product(to, Operand::Held(INDEX), Operand::Number(4)),
        7 => sum(to, before, offset(place)),
        10 => sum(to, before, earlier(place, 1)),
        11 => product(to, earlier(place, 2), earlier(place, 4)),
        12 => store(place),
        13 => seen(to, place),
        _ => below(to, before),
    }
}

/// A small number that is not the same in each turn.
fn offset(place: u32) -> Operand {
    match place / TURN % 4 {
        0 => Operand::Number(3),
        1 => Operand::Number(0),
        2 => Operand::Number(5),
        _ => Operand::Number(2),
    }
}

/// In every other turn the arrays are the other way round.
fn array_of(place: u32) -> u32 {
    if place % TURN < 8 {
        place / TURN % 2
    } else {
        1 - place / TURN % 2
    }
}

fn sum(to: Value, left: Operand, right: Operand) -> Op {
    Op::Compute {
        code: Code::Add,
        to,
        left,
        right,
    }
}

fn product(to: Value, left: Operand, right: Operand) -> Op {
    Op::Compute {
        code: Code::Mpylu,
        to,
        left,
        right,
    }
}

fn place_in(to: Value, array: u32, index: Operand) -> Op {
    Op::Place { to, array, index }
}

fn load(to: Value, array: u32, place: Operand) -> Op {
    Op::Load {
        to,
        array,
        place,
        dismissible: false,
    }
}

/// A store of the product above it at the place of its turn's first load.
fn store(place: u32) -> Op {
    Op::Store {
        array: place / TURN % 2,
        place: Operand::Held(value_of(place.wrapping_sub(10))),
        from: Operand::Held(value_of(place.wrapping_sub(1))),
    }
}

/// A number that is printed in every fourth turn, and a sum in the others.
fn seen(to: Value, place: u32) -> Op {
    let from = Operand::Held(value_of(place.wrapping_sub(2)));
    if place / TURN % 4 == 3 {
        Op::Decimal { from }
    } else {
        sum(to, from, earlier(place, 6))
    }
}

/// A compare for the split behind it.
fn below(to: Value, left: Operand) -> Op {
    Op::Compute {
        code: Code::ToBranch(Compare::Lt),
        to,
        left,
        right: Operand::Number(1000),
    }
}
