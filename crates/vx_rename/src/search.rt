// Names for the values of the graphs of a flow. They are looked for and owe nothing, since they are tested.

use crate::colours::colours_of;
use crate::kinds::{BASE, BRANCH, GENERAL, count_of, counts_of, kinds_of};
use crate::moves::merge_moves;
use crate::names::GraphNames;
use crate::shared_names::names_by;
use crate::value_sets::{NONE, at, put};
use crate::web_names::{Walk, WebNames, web_names, webs_of};
use crate::webs::Webs;
use std::alloc::Global;
use vx_base::listed::copied;
use vx_base::outcome::NoMemory;
use vx_flow::graph::Graph;
use vx_flow::live;
use vx_flow::live_rows::Live;

/// How many links between webs are noted before a graph keeps its names.
const MOST_LINKS: usize = 4000000;

/// How many registers there are for values.
#[derive(Clone, Copy)]
pub struct Room {
    /// For general values.
    pub general: u32,
    /// For branch values.
    pub branch: u32,
}

/// The names for each graph; for one that is let be they pass no test.
pub(crate) fn names_for(
    alloc: Global,
    graphs: &[Graph],
    room: Room,
) -> Result<Vec<GraphNames>, NoMemory> {
    let mut all = Vec::new(alloc);
    for graph in graphs {
        all.push(graph_names(alloc, graph, room)?)?;
    }
    Ok(all)
}

/// The names for a graph.
fn graph_names(alloc: Global, graph: &Graph, room: Room) -> Result<GraphNames, NoMemory> {
    let live = live(alloc, graph)?;
    let kinds = kinds_of(alloc, graph)?;
    let mut walk = webs_of(alloc, graph, &live)?;
    let names = names_within(alloc, graph, &live, kinds.as_slice(), &mut walk, room);
    drop(walk);
    names
}

/// The names for a graph whose webs were found: their own where too many of them are neighbours, or far more of them are live at once
/// than there is room for.
fn names_within(
    alloc: Global,
    graph: &Graph,
    live: &Live,
    kinds: &[u32],
    walk: &mut Walk,
    room: Room,
) -> Result<GraphNames, NoMemory> {
    let counts = counts_of(alloc, kinds, &mut walk.webs, graph.arrays.len())?;
    let rooms = rooms_of(alloc, counts.as_slice(), within(room, kinds))?;
    let is_enough = is_roomy(counts.as_slice(), rooms.as_slice());
    drop(counts);
    let is_apart = room.general == u32::MAX;
    let most_links = if is_enough && is_apart { 0 } else { MOST_LINKS };
    let names = web_names(alloc, graph, live, walk, most_links)?;
    if !is_enough && walk.neighbours.is_full() {
        return own_names(alloc, graph, &names, &walk.webs);
    }
    if !is_apart && !walk.neighbours.is_full() {
        merge_moves(
            alloc,
            graph,
            &names,
            kinds,
            rooms.as_slice(),
            &mut walk.webs,
            &mut walk.neighbours,
        )?;
    }
    let roots = walk.webs.roots(alloc)?;
    let colours = colours_of(alloc, graph, &names, kinds, &walk.neighbours, roots, rooms)?;
    if colours.is_crowded() {
        return own_names(alloc, graph, &names, &walk.webs);
    }
    let banks = colours.banks(alloc)?;
    names_by(alloc, &names, colours.to(), banks)
}

/// The names by which each value keeps its own.
fn own_names(
    alloc: Global,
    graph: &Graph,
    names: &WebNames,
    webs: &Webs,
) -> Result<GraphNames, NoMemory> {
    let banks = copied(alloc, graph.banks.as_slice())?;
    names_by(alloc, names, webs.values(), banks)
}

/// No more room than the graph has values of a bank.
fn within(room: Room, kinds: &[u32]) -> Room {
    let branch = count_of(kinds, BRANCH);
    let all = kinds.len().min(NONE as usize) as u32;
    Room {
        general: room.general.min(all.saturating_sub(branch)),
        branch: room.branch.min(branch),
    }
}

/// Whether each web can have a name of its own.
fn is_roomy(counts: &[u32], rooms: &[u32]) -> bool {
    for (kind, count) in counts.iter().enumerate() {
        match rooms.get(kind) {
            Some(room) => {
                if *count > *room {
                    return false;
                }
            }
            None => return false,
        }
    }
    true
}

/// The room of each kind: bases, and the places of an array that is no global, get a share of the general registers by their number.
fn rooms_of(alloc: Global, counts: &[u32], room: Room) -> Result<Vec<u32>, NoMemory> {
    let mut rooms = vec![in alloc; 0; counts.len()]?;
    let mut all: u32 = 0;
    for (kind, count) in counts.iter().enumerate() {
        if kind != BRANCH as usize {
            all = all.saturating_add(*count);
        }
    }
    let mut left = room.general;
    for (kind, count) in counts.iter().enumerate() {
        if kind >= BASE as usize && kind < NONE as usize && *count > 0 {
            let share = share_of(room.general, *count, all);
            put(&mut rooms, kind as u32, share);
            left = left.saturating_sub(share);
        }
    }
    put(&mut rooms, GENERAL, left);
    put(&mut rooms, BRANCH, room.branch);
    Ok(rooms)
}

/// As many as there are where all have room, else in proportion, and one at least.
fn share_of(room: u32, count: u32, all: u32) -> u32 {
    if all <= room || all == 0 {
        count
    } else {
        let share = room as u64 * count as u64 / all as u64;
        share.max(1).min(count as u64) as u32
    }
}
