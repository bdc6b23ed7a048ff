// The trace of the blocks of an `if` without `else`, worked out by hand.

ghost use Rattle.std.specs.Prelude.{◌≡◌, [], ◌∷◌, true, IfOk};
ghost use Rattle.vx_flow.specs.Sound.{is_sound};
ghost use Rattle.vx_motion.specs.TraceExample.{if_banks, if_blocks};
ghost use Rattle.vx_mixed.specs.TraceOf.{CanTrace};

use crate::graphs::{if_begun, without_else};
use std::alloc::Global;
use std::test::Fail;
use vx_base::outcome::NoMemory;
use vx_flow::graph::{Edge, Graph, Op};
use vx_flow::trace::{Trace, TraceOp};
use vx_replace::Mixed;
use vx_sound::graph_is_sound;

#[tactic(auto, using(vx_motion::proofs::Traced::if_traces))]
fn traced(alloc: Global, graph: &Graph) -> Result<Trace, NoMemory>
    requires sound { is_sound graph.now ≡ true }
    requires blocks { graph.now.blocks ≡ if_blocks }
    requires banks { graph.now.banks ≡ if_banks }
{
    let mixed = if_begun(alloc, graph)?;
    mixed.trace(alloc, &[0, 1, 2])
}

/// The value that an operation writes; of a split 100 and the value that it tests.
fn mark(op: &TraceOp) -> u64 {
    match op {
        TraceOp::Plain(Op::Compute { to, .. }) => u64::from(*to),
        TraceOp::Plain(_) => 0,
        TraceOp::Split { test, .. } => 100 + u64::from(*test),
    }
}

fn has_marks(ops: &[TraceOp], marks: &[u64]) -> bool {
    ops.len() == marks.len()
        && ops
            .iter()
            .zip(marks)
            .all(|(op, wanted)| mark(op) == *wanted)
}

/// The split leaves from block 0 to block 3 where its test is 0, and v1, v2 and v3 are live there.
fn splits_so(op: Option<&TraceOp>) -> bool {
    match op {
        Some(
            TraceOp::Split {
                leaves_when,
                edge,
                live,
                ..
            },
        ) => {
            !*leaves_when
                && *edge == Edge { from: 0, to: 3 }
                && live.as_slice() == [1, 2, 3].as_slice()
        }
        _ => false,
    }
}

/// One join: at block 2, behind four operations, with the edge from block 3.
fn joins_so(trace: &Trace) -> bool {
    match trace.joins.as_slice() {
        [join] => {
            join.place == 4
                && join.block == 2
                && join.edges.as_slice() == [Edge { from: 3, to: 2 }].as_slice()
        }
        _ => false,
    }
}

fn is_worked(trace: &Trace) -> bool {
    let ops = trace.ops.as_slice();
    trace.blocks.as_slice() == [0, 1, 2].as_slice()
        && has_marks(ops, &[3, 6, 106, 2, 4, 5])
        && splits_so(ops.get(2))
        && joins_so(trace)
        && trace.fixed.as_slice() == [None; 6].as_slice()
        && trace.values == 7
}

fn is_traced(alloc: Global) -> Result<bool, NoMemory> {
    let graph = without_else(alloc)?;
    if !graph_is_sound(&graph) {
        return Ok(false);
    }
    let trace = traced(alloc, &graph)?;
    Ok(is_worked(&trace))
}

#[test]
fn the_trace_of_an_if(rt: HostRuntime) -> Result<(), Fail> {
    assert!(rt; is_traced(rt.alloc())?);
    Ok(())
}
