// The kinds of names: those of branch values, those of bases, those of places of each array that is no global, and those of all other
// values. A name of one kind is given to no value of another.

use crate::value_sets::{NONE, at, put};
use crate::webs::Webs;
use std::alloc::Global;
use vx_base::outcome::NoMemory;
use vx_flow::arrays::is_local;
use vx_flow::graph::{Array, Bank, Graph, Op};

/// The kind of a general value that is no base and no place of an array that is no global.
pub const GENERAL: u32 = 0;

/// The kind of a branch value.
pub const BRANCH: u32 = 1;

/// The kind of the bases that are made.
pub const BASE: u32 = 2;

/// The kind of the bases of arrays that were handed over.
pub const GIVEN: u32 = 3;

/// The kind of the places of the first array; those of the next ones follow.
pub const PLACE: u32 = 4;

/// The kind of each value of a graph.
pub(crate) fn kinds_of(alloc: Global, graph: &Graph) -> Result<Vec<u32>, NoMemory> {
    let mut kinds = Vec::new(alloc);
    for bank in graph.banks.as_slice() {
        kinds.push(match bank {
            Bank::General => GENERAL,
            Bank::Branch => BRANCH,
        })?;
    }
    put_given(graph.arrays.as_slice(), &mut kinds);
    for block in graph.blocks.as_slice() {
        put_places(graph, block.ops.as_slice(), &mut kinds);
    }
    Ok(kinds)
}

fn put_given(arrays: &[Array], kinds: &mut Vec<u32>) {
    for array in arrays {
        if let Some(base) = array.base {
            put(kinds, base, GIVEN);
        }
    }
}

fn put_places(graph: &Graph, ops: &[Op], kinds: &mut Vec<u32>) {
    for op in ops {
        match op {
            Op::Place { to, array, .. } => {
                if is_local(graph.arrays.as_slice(), *array) {
                    put(kinds, *to, array.saturating_add(PLACE));
                }
            }
            Op::PlaceIn { to, array, .. } => put(kinds, *to, array.saturating_add(PLACE)),
            Op::Base { to, .. } => put(kinds, *to, BASE),
            _ => {}
        }
    }
}

/// How many of these there are.
pub(crate) fn count_of(row: &[u32], kind: u32) -> u32 {
    let mut count: u32 = 0;
    for item in row {
        if *item == kind {
            count = count.saturating_add(1);
        }
    }
    count
}

/// How many webs there are of each kind, of a graph with so many arrays.
pub(crate) fn counts_of(
    alloc: Global,
    kinds: &[u32],
    webs: &mut Webs,
    arrays: usize,
) -> Result<Vec<u32>, NoMemory> {
    let mut counts = vec![in alloc; 0; arrays.saturating_add(PLACE as usize)]?;
    let all = webs.len().min(NONE as usize) as u32;
    for web in 0..all {
        if webs.find(web) == web {
            let kind = at(kinds, at(webs.values(), web));
            let more = at(counts.as_slice(), kind).saturating_add(1);
            put(&mut counts, kind, more);
        }
    }
    Ok(counts)
}
