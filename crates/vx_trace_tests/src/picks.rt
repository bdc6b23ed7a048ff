// The trace that is picked first in worked graphs, by hand.

ghost use Rattle.std.specs.Prelude.{◌≡◌, true};
ghost use Rattle.vx_flow.specs.Sound.{is_sound};
ghost use Rattle.vx_mixed.specs.Valid.{CanBegin};

use crate::begins::{begun, can_begin};
use crate::passes::{Passed, counts};
use crate::shapes::{CALLING, FULL, LONG, LOOP};
use std::alloc::Global;
use std::test::Fail;
use vx_base::outcome::NoMemory;
use vx_flow::graph::{BlockId, Graph};
use vx_profile::counts::Counts;
use vx_replace::Mixed;
use vx_sound::graph_is_sound;
use vx_test_graphs::{Shape, WITHOUT_ELSE, graph};
use vx_trace::{count_of_trace, pick};

/// A graph with its counts; then the trace that is picked, and the count of its seed.
#[derive(Clone, Copy)]
struct Row<'a> {
    shape: Shape<'a>,
    blocks: &'a [(BlockId, u64)],
    edges: &'a [(BlockId, BlockId, u64)],
    trace: &'a [BlockId],
    count: u64,
}

const ROWS: [Row<'static>; 15] = [
    // of blocks 0 and 2 the lower one is the seed; 0-1 outweighs 0-3, and 1-2 outweighs 3-2
    Row {
        shape: WITHOUT_ELSE,
        blocks: &[(0, 10), (1, 7), (2, 10), (3, 3)],
        edges: &[(0, 1, 7), (0, 3, 3), (1, 2, 7), (3, 2, 3)],
        trace: &[0, 1, 2],
        count: 10,
    },
    // the other way, where it is passed more often
    Row {
        shape: WITHOUT_ELSE,
        blocks: &[(0, 10), (1, 3), (2, 10), (3, 7)],
        edges: &[(0, 1, 3), (0, 3, 7), (1, 2, 3), (3, 2, 7)],
        trace: &[0, 3, 2],
        count: 10,
    },
    // edges of one count: out of block 0 the one to the lowest block, into block 2 the one from the lowest
    Row {
        shape: WITHOUT_ELSE,
        blocks: &[(0, 10), (1, 5), (2, 10), (3, 5)],
        edges: &[(0, 1, 5), (0, 3, 5), (1, 2, 5), (3, 2, 5)],
        trace: &[0, 1, 2],
        count: 10,
    },
    // from the last block all of it is growth backward
    Row {
        shape: WITHOUT_ELSE,
        blocks: &[(0, 10), (1, 7), (2, 20), (3, 3)],
        edges: &[(0, 1, 7), (0, 3, 3), (1, 2, 7), (3, 2, 3)],
        trace: &[0, 1, 2],
        count: 20,
    },
    // the edge from 0 is the heaviest into block 1, but not the heaviest out of 0
    Row {
        shape: WITHOUT_ELSE,
        blocks: &[(0, 10), (1, 20), (2, 10), (3, 7)],
        edges: &[(0, 1, 3), (0, 3, 7), (1, 2, 9), (3, 2, 1)],
        trace: &[1, 2],
        count: 20,
    },
    // the edge from 1 is the only one out of it, but 3-2 is heavier into block 2
    Row {
        shape: WITHOUT_ELSE,
        blocks: &[(0, 10), (1, 7), (2, 9), (3, 3)],
        edges: &[(0, 1, 7), (0, 3, 3), (1, 2, 7), (3, 2, 8)],
        trace: &[0, 1],
        count: 10,
    },
    // nothing was passed: the first block is the seed, and all edges are of one count
    Row {
        shape: WITHOUT_ELSE,
        blocks: &[],
        edges: &[],
        trace: &[0, 1, 2],
        count: 0,
    },
    // a header begins its trace, and the back edge to it, the heaviest into it, is not taken
    Row {
        shape: LOOP,
        blocks: &[(0, 1), (1, 11), (2, 1), (3, 10)],
        edges: &[(0, 1, 1), (1, 2, 1), (1, 3, 10), (3, 1, 10)],
        trace: &[1, 3],
        count: 11,
    },
    // the edge from 0 is the heaviest out of 0 and into block 1, but goes to a header
    Row {
        shape: LOOP,
        blocks: &[(0, 5), (1, 7), (2, 5), (3, 2)],
        edges: &[(0, 1, 5), (1, 2, 5), (1, 3, 2), (3, 1, 2)],
        trace: &[1, 2],
        count: 7,
    },
    // so it does forward
    Row {
        shape: LOOP,
        blocks: &[(0, 7), (1, 7), (2, 5), (3, 2)],
        edges: &[(0, 1, 5), (1, 2, 5), (1, 3, 2), (3, 1, 2)],
        trace: &[0],
        count: 7,
    },
    // a call ends its trace, forward and backward
    Row {
        shape: CALLING,
        blocks: &[(0, 5), (1, 5)],
        edges: &[(0, 1, 5)],
        trace: &[0],
        count: 5,
    },
    Row {
        shape: CALLING,
        blocks: &[(0, 5), (1, 6)],
        edges: &[(0, 1, 5)],
        trace: &[1],
        count: 6,
    },
    // 256 and 256 operations are 512, and one more is too many; from block 2 on 1 and 256 go together
    Row {
        shape: LONG,
        blocks: &[(0, 3), (1, 3), (2, 3), (3, 3)],
        edges: &[(0, 1, 3), (1, 2, 3), (2, 3, 3)],
        trace: &[0, 1],
        count: 3,
    },
    Row {
        shape: LONG,
        blocks: &[(0, 3), (1, 3), (2, 4), (3, 3)],
        edges: &[(0, 1, 3), (1, 2, 3), (2, 3, 3)],
        trace: &[1, 2, 3],
        count: 4,
    },
    // an empty block behind 512 operations
    Row {
        shape: FULL,
        blocks: &[(0, 3), (1, 3), (2, 3)],
        edges: &[(0, 1, 3), (1, 2, 3)],
        trace: &[0, 1, 2],
        count: 3,
    },
];

fn has_first(
    alloc: Global,
    mixed: &Mixed,
    counts: &Counts,
    wanted: &[BlockId],
    count: u64,
) -> Result<bool, NoMemory> {
    match pick(alloc, mixed, counts)? {
        None => Ok(false),
        Some(trace) => Ok(
            trace.as_slice() == wanted && count_of_trace(mixed, counts, trace.as_slice()) == count,
        ),
    }
}

fn is_picked(alloc: Global, graph: &Graph, counts: &Counts, row: &Row) -> Result<bool, NoMemory>
    requires sound { is_sound graph.now ≡ true }
    requires begins { CanBegin graph.now }
{
    let mixed = begun(alloc, graph)?;
    has_first(alloc, &mixed, counts, row.trace, row.count)
}

fn is_so(alloc: Global, row: &Row) -> Result<bool, NoMemory> {
    let passed = Passed {
        blocks: row.blocks,
        edges: row.edges,
    };
    let counts = counts(alloc, &passed)?;
    let graph = graph(alloc, &row.shape)?;
    if !graph_is_sound(&graph) {
        return Ok(false);
    }
    if !can_begin(alloc, &graph)? {
        return Ok(false);
    }
    is_picked(alloc, &graph, &counts, row)
}

fn first_wrong(alloc: Global) -> Result<usize, NoMemory> {
    for (number, row) in ROWS.iter().enumerate() {
        if !is_so(alloc, row)? {
            return Ok(number);
        }
    }
    Ok(ROWS.len())
}

#[test]
fn first_traces(rt: HostRuntime) -> Result<(), Fail> {
    assert_eq!(rt; first_wrong(rt.alloc())?, ROWS.len());
    Ok(())
}
