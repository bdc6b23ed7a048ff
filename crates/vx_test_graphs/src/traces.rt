// Traces, written as constants. specs/Traces.antt says which trace each of them is.

ghost use Rattle.std.specs.Prelude.{◌≡◌, IfOk, map};
ghost use Rattle.vx_flow.specs.declared.graph.Op.TheVariants.{Compute};
ghost use Rattle.vx_flow.specs.declared.graph.Operand.TheVariants.{Held};
ghost use Rattle.vx_test_graphs.specs.Traces.{plain_op, trace_op, join_at, trace_of};

use std::alloc::Global;
use vx_base::arithmetic::{Code, Compare};
use vx_base::listed::{Listed, copied};
use vx_base::outcome::NoMemory;
use vx_flow::graph::{Array, Edge, Op, Operand, Value};
use vx_flow::trace::{Join, Trace, TraceOp};

/// An operation of a trace, of which the usual ones are written short.
#[derive(Clone, Copy)]
pub enum Step<'a> {
    /// The value that is written, and the operands, of which the left one is a value.
    On(Code, Value, Value, Operand),
    /// The value that is written, and two values of which it is the sum.
    Sum(Value, Value, Value),
    /// The value that is written, and the value and number of which it is the sum.
    More(Value, Value, i32),
    /// The branch value that is written, and the value and number that are compared.
    Below(Value, Value, i32),
    /// The value that is printed.
    Print(Value),
    /// The value that is written, an array, and the index.
    Place(Value, u32, Value),
    /// The value that is written, an array, and the place.
    Load(Value, u32, Value),
    /// An array, the place, and the value that is stored.
    Store(u32, Value, Value),
    /// Any operation.
    Plain(Op),
    /// The test, and the values that are live in block 3, to which it leaves.
    Split(Value, &'a [Value]),
}

const fn compute(code: Code, to: Value, left: Value, right: Operand) -> Op
    ensures { result ≡ Compute code to (Held left) right }
{
    Op::Compute {
        code,
        to,
        left: Operand::Held(left),
        right,
    }
}

fn plain(step: &Step) -> Op
    ensures { result ≡ plain_op step.now }
{
    match step {
        Step::On(code, to, left, right) => compute(*code, *to, *left, *right),
        Step::Sum(to, left, right) => compute(Code::Add, *to, *left, Operand::Held(*right)),
        Step::More(to, left, number) => compute(Code::Add, *to, *left, Operand::Number(*number)),
        Step::Below(to, left, number) => {
            compute(
                Code::ToBranch(Compare::Lt),
                *to,
                *left,
                Operand::Number(*number),
            )
        }
        Step::Print(from) => Op::Decimal {
            from: Operand::Held(*from),
        },
        Step::Place(to, array, index) => Op::Place {
            to: *to,
            array: *array,
            index: Operand::Held(*index),
        },
        Step::Load(to, array, place) => Op::Load {
            to: *to,
            array: *array,
            place: Operand::Held(*place),
            dismissible: false,
        },
        Step::Store(array, place, from) => Op::Store {
            array: *array,
            place: Operand::Held(*place),
            from: Operand::Held(*from),
        },
        Step::Plain(op) => *op,
        Step::Split(..) => Op::Text { number: 0 },
    }
}

fn trace_op(alloc: Global, step: &Step) -> Result<TraceOp, NoMemory>
    ensures { IfOk result (λ op. op ≡ trace_op step.now) }
{
    match step {
        Step::Split(test, live) => Ok(TraceOp::Split {
            test: *test,
            leaves_when: false,
            edge: Edge { from: 0, to: 3 },
            live: copied(alloc, live)?,
        }),
        _ => Ok(TraceOp::Plain(plain(step))),
    }
}

fn ops(alloc: Global, steps: &[Step]) -> Result<Listed<TraceOp>, NoMemory>
    ensures { IfOk result (λ ops. ops ≡ map trace_op steps.now) }
{
    let mut list = Listed::new(alloc);
    for step in steps {
        list.push(trace_op(alloc, step)?)?;
    }
    Ok(list)
}

fn join(alloc: Global, place: u32) -> Result<Join, NoMemory>
    ensures { IfOk result (λ join. join ≡ join_at place) }
{
    let edges = copied(alloc, &[Edge { from: 3, to: 2 }])?;
    Ok(Join {
        place,
        block: 2,
        edges,
    })
}

fn joins(alloc: Global, places: &[u32]) -> Result<Listed<Join>, NoMemory>
    ensures { IfOk result (λ joins. joins ≡ map join_at places.now) }
{
    let mut list = Listed::new(alloc);
    for place in places {
        list.push(join(alloc, *place)?)?;
    }
    Ok(list)
}

/// Two global arrays of 16 words.
const ARRAYS: [Array; 2] = [
    Array {
        words: 16,
        global: true,
        named: 0,
        base: None,
    },
    Array {
        words: 16,
        global: true,
        named: 1,
        base: None,
    },
];

/// The trace of these operations, with joins behind so many of them, of a graph of 20 values and two arrays.
pub fn trace(alloc: Global, steps: &[Step], places: &[u32]) -> Result<Trace, NoMemory>
    ensures { IfOk result (λ trace. trace ≡ trace_of steps.now places.now) }
{
    let blocks = copied(alloc, &[0])?;
    let arrays = copied(alloc, &ARRAYS)?;
    let fixed = Listed::from_vec(vec![in alloc; None; steps.len()]?)?;
    let joins = joins(alloc, places)?;
    let ops = ops(alloc, steps)?;
    Ok(Trace {
        function: 0,
        blocks,
        ops,
        fixed,
        joins,
        values: 20,
        arrays,
    })
}
