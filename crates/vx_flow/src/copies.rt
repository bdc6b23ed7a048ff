// Copies of graphs and of traces. Each call fails only for want of memory.

ghost use Rattle.std.specs.Prelude.{◌≡◌, IfOk};

use crate::graph::{Block, Exit, Graph};
use crate::trace::{Clustered, Homes, Join, Trace, TraceOp};
use std::alloc::Global;
use vx_base::listed::{Listed, copied};
use vx_base::outcome::NoMemory;

/// A copy of an exit.
pub fn copied_exit(alloc: Global, exit: &Exit) -> Result<Exit, NoMemory>
    ensures { IfOk result (λ copy. copy ≡ exit.now) }
{
    match exit {
        Exit::Goto(to) => Ok(Exit::Goto(*to)),
        Exit::Split { test, yes, no } => Ok(Exit::Split {
            test: *test,
            yes: *yes,
            no: *no,
        }),
        Exit::Call {
            function,
            arguments,
            result,
            next,
        } => {
            let arguments = copied(alloc, arguments.as_slice())?;
            Ok(Exit::Call {
                function: *function,
                arguments,
                result: *result,
                next: *next,
            })
        }
        Exit::Return(operand) => Ok(Exit::Return(*operand)),
        Exit::Ends(trap) => Ok(Exit::Ends(*trap)),
    }
}

/// A copy of a block.
pub fn copied_block(alloc: Global, block: &Block) -> Result<Block, NoMemory>
    ensures { IfOk result (λ copy. copy ≡ block.now) }
{
    let ops = copied(alloc, block.ops.as_slice())?;
    let exit = copied_exit(alloc, &block.exit)?;
    Ok(Block { ops, exit })
}

fn copied_blocks(alloc: Global, blocks: &[Block]) -> Result<Listed<Block>, NoMemory>
    ensures { IfOk result (λ copies. copies ≡ blocks.now) }
{
    let mut copies = Listed::new(alloc);
    for block in blocks {
        copies.push(copied_block(alloc, block)?)?;
    }
    Ok(copies)
}

/// A copy of a graph, with other blocks.
pub fn with_blocks(alloc: Global, graph: &Graph, blocks: Listed<Block>) -> Result<Graph, NoMemory>
    ensures { IfOk result (λ copy. copy ≡ record graph.now { blocks = blocks }) }
{
    match (
        copied(alloc, graph.banks.as_slice()),
        copied(alloc, graph.parameters.as_slice()),
        copied(alloc, graph.arrays.as_slice()),
    ) {
        (Ok(banks), Ok(parameters), Ok(arrays)) => Ok(Graph {
            blocks,
            banks,
            parameters,
            arrays,
        }),
        _ => Err(NoMemory),
    }
}

/// A copy of a graph.
pub fn copied_graph(alloc: Global, graph: &Graph) -> Result<Graph, NoMemory>
    ensures { IfOk result (λ copy. copy ≡ graph.now) }
{
    let blocks = copied_blocks(alloc, graph.blocks.as_slice())?;
    with_blocks(alloc, graph, blocks)
}

/// A copy of an operation of a trace.
pub fn copied_op(alloc: Global, op: &TraceOp) -> Result<TraceOp, NoMemory>
    ensures { IfOk result (λ copy. copy ≡ op.now) }
{
    match op {
        TraceOp::Plain(op) => Ok(TraceOp::Plain(*op)),
        TraceOp::Split {
            test,
            leaves_when,
            edge,
            live,
        } => {
            let live = copied(alloc, live.as_slice())?;
            Ok(TraceOp::Split {
                test: *test,
                leaves_when: *leaves_when,
                edge: *edge,
                live,
            })
        }
    }
}

fn copied_ops(alloc: Global, ops: &[TraceOp]) -> Result<Listed<TraceOp>, NoMemory>
    ensures { IfOk result (λ copies. copies ≡ ops.now) }
{
    let mut copies = Listed::new(alloc);
    for op in ops {
        copies.push(copied_op(alloc, op)?)?;
    }
    Ok(copies)
}

fn copied_join(alloc: Global, join: &Join) -> Result<Join, NoMemory>
    ensures { IfOk result (λ copy. copy ≡ join.now) }
{
    let edges = copied(alloc, join.edges.as_slice())?;
    Ok(Join {
        place: join.place,
        block: join.block,
        edges,
    })
}

/// A copy of the joins of a trace.
pub fn copied_joins(alloc: Global, joins: &[Join]) -> Result<Listed<Join>, NoMemory>
    ensures { IfOk result (λ copies. copies ≡ joins.now) }
{
    let mut copies = Listed::new(alloc);
    for join in joins {
        copies.push(copied_join(alloc, join)?)?;
    }
    Ok(copies)
}

/// A copy of a trace.
pub fn copied_trace(alloc: Global, trace: &Trace) -> Result<Trace, NoMemory>
    ensures { IfOk result (λ copy. copy ≡ trace.now) }
{
    match (
        copied(alloc, trace.blocks.as_slice()),
        copied_ops(alloc, trace.ops.as_slice()),
        copied(alloc, trace.fixed.as_slice()),
        copied_joins(alloc, trace.joins.as_slice()),
        copied(alloc, trace.arrays.as_slice()),
    ) {
        (Ok(blocks), Ok(ops), Ok(fixed), Ok(joins), Ok(arrays)) => Ok(Trace {
            function: trace.function,
            blocks,
            ops,
            fixed,
            joins,
            values: trace.values,
            arrays,
        }),
        _ => Err(NoMemory),
    }
}

/// A copy of a clustered trace.
pub fn copied_clustered(alloc: Global, clustered: &Clustered) -> Result<Clustered, NoMemory>
    ensures { IfOk result (λ copy. copy ≡ clustered.now) }
{
    let clusters = copied(alloc, clustered.clusters.as_slice())?;
    let trace = copied_trace(alloc, &clustered.trace)?;
    Ok(Clustered { trace, clusters })
}

/// A copy of the clusters on which values stand.
pub fn copied_homes(alloc: Global, homes: &Homes) -> Result<Homes, NoMemory>
    ensures { IfOk result (λ copy. copy ≡ homes.now) }
{
    let clusters = copied(alloc, homes.clusters.as_slice())?;
    Ok(Homes { clusters })
}
