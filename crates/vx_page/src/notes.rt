// What is known of the blocks of a function while its traces are shown, one after the other: how many operations each has, where it was
// made, and which trace took it. Blocks are made as vx_region makes them: first those on the edges of splits, then those of joins.

use crate::view::TraceView;
use std::alloc::Global;
use vx_base::outcome::NoMemory;
use vx_flow::graph::{Block, BlockId, Edge};
use vx_flow::trace::{Join, TraceOp};

/// A block.
#[derive(Clone, Copy)]
pub struct BlockNote {
    /// How many operations it has, its exit not among them.
    pub ops: u32,
    /// Where it was made, if it is none of the function's graph.
    pub made: Option<MadeAt>,
    /// The number of the trace that took it.
    pub owner: Option<u32>,
}

/// Where a block was made.
#[derive(Clone, Copy)]
pub struct MadeAt {
    /// The number of the trace whose operations it copies.
    pub trace: u32,
    /// The edge on which it stands.
    pub edge: Edge,
}

/// The blocks of a graph, taken by no trace.
pub fn notes_of(alloc: Global, blocks: &[Block]) -> Result<Vec<BlockNote>, NoMemory> {
    let mut notes = Vec::new(alloc);
    for block in blocks {
        notes.push(BlockNote {
            ops: block.ops.len() as u32,
            made: None,
            owner: None,
        })?;
    }
    Ok(notes)
}

/// The note of a block; one of a block without operations where there is none.
pub fn note_of(notes: &[BlockNote], block: BlockId) -> BlockNote {
    match notes.get(block as usize) {
        Some(note) => *note,
        None => BlockNote {
            ops: 0,
            made: None,
            owner: None,
        },
    }
}

fn take(notes: &mut Vec<BlockNote>, block: BlockId, trace: u32) {
    if let Some(note) = notes.get_mut(block as usize) {
        note.owner = Some(trace);
    }
}

/// How many of these operations are copied: those that are no splits.
fn plain_among(ops: &[TraceOp], places: &[u32]) -> u32 {
    let mut count: u32 = 0;
    for place in places {
        if let Some(TraceOp::Plain(_)) = ops.get(*place as usize) {
            count = count.saturating_add(1);
        }
    }
    count
}

fn push_made(notes: &mut Vec<BlockNote>, ops: u32, trace: u32, edge: Edge) -> Result<(), NoMemory> {
    if ops > 0 {
        notes.push(BlockNote {
            ops,
            made: Some(MadeAt { trace, edge }),
            owner: None,
        })?;
    }
    Ok(())
}

fn push_join(
    notes: &mut Vec<BlockNote>,
    ops: u32,
    trace: u32,
    edges: &[Edge],
) -> Result<(), NoMemory> {
    for edge in edges {
        push_made(notes, ops, trace, *edge)?;
    }
    Ok(())
}

/// The edges from outside at the join of a block, none where it is no join.
pub fn edges_of(joins: &[Join], block: BlockId) -> &[Edge] {
    for join in joins {
        if join.block == block {
            return join.edges.as_slice();
        }
    }
    &[]
}

/// Notes that a trace took its blocks, and the blocks that were made for its copies.
pub fn note_trace(notes: &mut Vec<BlockNote>, trace: &TraceView) -> Result<(), NoMemory> {
    for block in trace.blocks {
        take(notes, *block, trace.number);
    }
    note_made(notes, trace)
}

fn note_made(notes: &mut Vec<BlockNote>, trace: &TraceView) -> Result<(), NoMemory> {
    let ops = trace.placed.clustered.trace.ops.as_slice();
    let joins = trace.placed.clustered.trace.joins.as_slice();
    for split in trace.splits {
        let count = plain_among(ops, split.copies.as_slice());
        push_made(notes, count, trace.number, split.edge)?;
    }
    for rejoin in trace.rejoins {
        let count = plain_among(ops, rejoin.copies.as_slice());
        push_join(notes, count, trace.number, edges_of(joins, rejoin.block))?;
    }
    Ok(())
}
