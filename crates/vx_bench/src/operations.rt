// How many operations a source does over its graphs with an empty input, within 100,000,000 blocks. The number is put as a
// line.

use crate::result::Ended;
use crate::source::program_of;
use std::alloc::Global;
use vx_ast::typed::Typed;
use vx_base::outcome::NoMemory;
use vx_flow::graph::{Flow, Graph};
use vx_lower::lower;
use vx_profile::counts::Counts;
use vx_tally::count;

/// The most blocks of a run.
const MOST_BLOCKS: u64 = 100000000;

/// What a run did.
#[derive(Clone, Copy)]
pub(crate) struct Work {
    /// How many blocks it passed.
    pub(crate) blocks: u64,
    /// How many operations it did in them, exits left out.
    pub(crate) operations: u64,
    /// Whether the run ended.
    pub(crate) complete: bool,
}

pub(crate) fn measure(rt: &HostRuntime, name: &str) -> Ended {
    match program_of(rt, name) {
        Ok(program) => told(rt, ran(rt.alloc(), &program)),
        Err(ended) => ended,
    }
}

/// Puts the number of operations of a run.
fn told(rt: &HostRuntime, answer: Result<Work, NoMemory>) -> Ended {
    match answer {
        Ok(work) => match println!(rt; "{}", work.operations) {
            Ok(()) if work.complete => Ended::Done,
            Ok(()) => Ended::WentOn,
            Err(_) => Ended::NotWritten,
        },
        Err(NoMemory) => Ended::NoMemory,
    }
}

fn ran(alloc: Global, program: &Typed) -> Result<Work, NoMemory> {
    let flow = lower(alloc, program)?;
    counted(alloc, &flow)
}

/// What a run of graphs with an empty input does.
pub(crate) fn counted(alloc: Global, flow: &Flow) -> Result<Work, NoMemory> {
    let counted = count(alloc, flow, &[], MOST_BLOCKS)?;
    Ok(done(flow, &counted.counts, counted.complete))
}

/// What was done by a run with these counts.
fn done(flow: &Flow, counts: &Counts, complete: bool) -> Work {
    let mut work = Work {
        blocks: 0,
        operations: 0,
        complete,
    };
    let mut number: u32 = 0;
    for graph in flow.functions.as_slice() {
        work = with_done_in(work, graph, number, counts);
        number = number.saturating_add(1);
    }
    work
}

/// With what was done in a function.
fn with_done_in(before: Work, graph: &Graph, function: u32, counts: &Counts) -> Work {
    let mut work = before;
    let mut number: u32 = 0;
    for block in graph.blocks.as_slice() {
        let times = counts.of_block(function, number);
        let operations = times.saturating_mul(block.ops.len() as u64);
        work.blocks = work.blocks.saturating_add(times);
        work.operations = work.operations.saturating_add(operations);
        number = number.saturating_add(1);
    }
    work
}
