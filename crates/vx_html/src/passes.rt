// How often a run issues each word of a trace, by the counts of a profile: its first block is entered so often, edges come in at the words
// of joins, and branches leave behind theirs. A block made for copies counts as the edge on which it was made.

use std::alloc::Global;
use vx_base::outcome::NoMemory;
use vx_dep::copies::word_at;
use vx_flow::graph::{BlockId, Edge};
use vx_machine::Machine;
use vx_page::notes::{BlockNote, edges_of, note_of};
use vx_page::page::small;
use vx_page::view::TraceView;
use vx_profile::counts::Counts;
use vx_room::items::Item;

/// The edge on which the younger made end of an edge was made, if it has one.
fn made_edge(notes: &[BlockNote], edge: Edge) -> Option<Edge> {
    let younger = edge.from.max(edge.to);
    match note_of(notes, younger).made {
        Some(made) => Some(made.edge),
        None => None,
    }
}

/// How often an edge is passed.
fn edge_passes(counts: &Counts, function: u32, notes: &[BlockNote], edge: Edge) -> u64 {
    let mut edge = edge;
    for _made in 0..notes.len() {
        match made_edge(notes, edge) {
            Some(under) => edge = under,
            None => return counts.of_edge(function, edge.from, edge.to),
        }
    }
    0
}

/// How often a block is passed.
fn block_passes(counts: &Counts, function: u32, notes: &[BlockNote], block: BlockId) -> u64 {
    match note_of(notes, block).made {
        Some(made) => edge_passes(counts, function, notes, made.edge),
        None => counts.of_block(function, block),
    }
}

/// How often these edges are passed.
fn edges_passes(counts: &Counts, function: u32, notes: &[BlockNote], edges: &[Edge]) -> u64 {
    let mut passes: u64 = 0;
    for edge in edges {
        passes = passes.saturating_add(edge_passes(counts, function, notes, *edge));
    }
    passes
}

/// How often edges come in at a word.
fn entered(counts: &Counts, trace: &TraceView, notes: &[BlockNote], word: u32) -> u64 {
    let joins = trace.placed.clustered.trace.joins.as_slice();
    let mut passes: u64 = 0;
    for rejoin in trace.rejoins {
        if rejoin.word == word {
            let edges = edges_of(joins, rejoin.block);
            passes = passes.saturating_add(edges_passes(counts, trace.function, notes, edges));
        }
    }
    passes
}

/// How often branches of a word leave.
fn left(counts: &Counts, trace: &TraceView, notes: &[BlockNote], word: u32) -> u64 {
    let words = trace.placed.words.as_slice();
    let mut passes: u64 = 0;
    for split in trace.splits {
        if word_at(words, split.split) == word {
            passes = passes.saturating_add(edge_passes(counts, trace.function, notes, split.edge));
        }
    }
    passes
}

/// How often the first block of a trace is passed.
fn begun(counts: &Counts, trace: &TraceView, notes: &[BlockNote]) -> u64 {
    match trace.blocks.first() {
        Some(block) => block_passes(counts, trace.function, notes, *block),
        None => 0,
    }
}

/// How often each word of a trace is issued, and behind that how often its end is passed.
pub fn passes_of(
    alloc: Global,
    counts: &Counts,
    trace: &TraceView,
    notes: &[BlockNote],
) -> Result<Vec<u64>, NoMemory> {
    let mut passes = Vec::new(alloc);
    let mut flow = begun(counts, trace, notes);
    for word in 0..trace.placed.length {
        flow = flow.saturating_add(entered(counts, trace, notes, word));
        passes.push(flow)?;
        flow = flow.saturating_sub(left(counts, trace, notes, word));
    }
    let end = entered(counts, trace, notes, trace.placed.length);
    passes.push(flow.saturating_add(end))?;
    Ok(passes)
}

/// How often the word is issued.
pub(crate) fn passes_at(passes: &[u64], word: u32) -> u64 {
    match passes.get(word as usize) {
        Some(count) => *count,
        None => 0,
    }
}

/// The empty cycles behind the last word of a trace, until all its results have landed.
fn last_drain(machine: &Machine, trace: &TraceView) -> u32 {
    let ops = trace.placed.clustered.trace.ops.as_slice();
    let words = trace.placed.words.as_slice();
    let mut landed = trace.placed.length;
    for (place, op) in ops.iter().enumerate() {
        let word = word_at(words, small(place));
        let latency = Item::of_trace(op).latency(machine);
        landed = landed.max(word.saturating_add(latency));
    }
    landed.saturating_sub(trace.placed.length)
}

/// The empty cycles of a run behind the branches of a trace.
fn split_drains(counts: &Counts, trace: &TraceView, notes: &[BlockNote]) -> u64 {
    let mut cycles: u64 = 0;
    for split in trace.splits {
        let passes = edge_passes(counts, trace.function, notes, split.edge);
        cycles = cycles.saturating_add(passes.saturating_mul(u64::from(split.drain)));
    }
    cycles
}

/// The cycles of a run in the words of a trace, and in the empty ones behind its branches and its end.
pub fn cycles_of(
    machine: &Machine,
    counts: &Counts,
    trace: &TraceView,
    notes: &[BlockNote],
    passes: &[u64],
) -> u64 {
    let ends = passes_at(passes, trace.placed.length);
    let drained = ends.saturating_mul(u64::from(last_drain(machine, trace)));
    let mut cycles = drained.saturating_add(split_drains(counts, trace, notes));
    for word in 0..trace.placed.length {
        cycles = cycles.saturating_add(passes_at(passes, word));
    }
    cycles
}
