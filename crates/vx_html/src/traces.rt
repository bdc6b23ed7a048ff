// A trace on the page: one line that names it, and behind that its words, its operations and its copies.

use crate::bars::bars_of;
use crate::loads::loads_of;
use crate::units::put_use;
use crate::whys::{Shown, put_why};
use crate::words::{put_colour, put_words};
use std::alloc::Global;
use vx_base::outcome::NoMemory;
use vx_dep::copies::{EdgeCopies, Rejoin};
use vx_flow::graph::{BlockId, Edge};
use vx_machine::Machine;
use vx_page::facts::{OpFact, facts_of, longest};
use vx_page::notes::{BlockNote, edges_of};
use vx_page::operations::{put_function, put_mode, put_trace_op};
use vx_page::page::{Page, small};
use vx_page::spots::{Spot, spots_of};
use vx_page::view::{Names, TraceView};

fn put_blocks(page: &mut Page, blocks: &[BlockId]) {
    for block in blocks {
        page.field(b" ", *block);
    }
}

/// Puts the line that names a trace.
pub(crate) fn put_name(page: &mut Page, names: &Names, trace: &TraceView) {
    page.field(b"<b>trace ", trace.number);
    page.put(b"</b> ");
    put_function(page, names, trace.function);
    page.put(b" <small>blocks");
    put_blocks(page, trace.blocks);
    page.put(b" &middot; count ");
    page.long(trace.count);
    page.put(b" &middot; ");
    put_mode(page, trace.mode);
    page.field(b" &middot; words ", trace.placed.length);
    page.field(
        b" &middot; operations ",
        trace.placed.clustered.trace.ops.len() as u32,
    );
    page.put(b"</small>");
}

fn put_landing(page: &mut Page, fact: &OpFact) {
    if fact.latency > 0 {
        page.number(fact.word.saturating_add(fact.latency));
    }
}

fn put_op_numbers(page: &mut Page, fact: &OpFact) {
    page.field(b"<td>", fact.block);
    page.field(b"<td>", fact.word);
    page.field(b"<td>", fact.cluster);
    page.field(b"<td>", fact.height);
    page.put(b"<td>");
    put_landing(page, fact);
}

fn put_op_row(page: &mut Page, shown: &Shown, place: u32, fact: &OpFact) {
    let is_critical = fact.depth.saturating_add(fact.height) >= shown.longest;
    page.put(if is_critical {
        b"<tr class=c>"
    } else {
        b"<tr>"
    });
    page.field(b"<th>", place);
    page.put(b"<td>");
    if let Some(op) = shown.ops().get(place as usize) {
        put_trace_op(page, &shown.names, op);
    }
    put_op_numbers(page, fact);
    page.put(b"<td>");
    put_why(page, shown, place);
}

fn put_ops(page: &mut Page, shown: &Shown) {
    page.put(
        b"<details><summary>operations in their order: heights, and what each waits for</summary><div class=wide><table class=p><tr><th>op<th>text<th>block<th>word<th>cluster<th>height<th>lands<th>why not earlier",
    );
    for (place, fact) in shown.facts.iter().enumerate() {
        put_op_row(page, shown, small(place), fact);
    }
    page.put(b"</table></div></details>");
}

fn put_edge(page: &mut Page, edge: Edge) {
    page.field(b"<li>on the edge ", edge.from);
    page.field(b"&rarr;", edge.to);
}

fn put_copied(page: &mut Page, shown: &Shown, places: &[u32]) {
    for place in places {
        if let Some(op) = shown.ops().get(*place as usize) {
            page.field(b"<br><b>", *place);
            page.put(b"</b> ");
            put_trace_op(page, &shown.names, op);
        }
    }
}

fn put_split_copies(page: &mut Page, shown: &Shown, split: &EdgeCopies) {
    if !split.copies.is_empty() {
        put_edge(page, split.edge);
        page.field(b", by which branch ", split.split);
        page.put(b" leaves:");
        put_copied(page, shown, split.copies.as_slice());
    }
}

fn put_join_copies(page: &mut Page, shown: &Shown, rejoin: &Rejoin) {
    let joins = shown.trace.placed.clustered.trace.joins.as_slice();
    if !rejoin.copies.is_empty() {
        for edge in edges_of(joins, rejoin.block) {
            put_edge(page, *edge);
        }
        page.field(b", by which the join of block ", rejoin.block);
        page.put(b" is entered:");
        put_copied(page, shown, rejoin.copies.as_slice());
    }
}

/// How many operations are copied, those at joins once for each edge.
pub fn copies_of(trace: &TraceView) -> u64 {
    let joins = trace.placed.clustered.trace.joins.as_slice();
    let mut count: u64 = 0;
    for split in trace.splits {
        count = count.saturating_add(split.copies.len() as u64);
    }
    for rejoin in trace.rejoins {
        let edges = edges_of(joins, rejoin.block).len() as u64;
        count = count.saturating_add(edges.saturating_mul(rejoin.copies.len() as u64));
    }
    count
}

fn put_copies(page: &mut Page, shown: &Shown) {
    let copies = copies_of(&shown.trace);
    if copies > 0 {
        page.put(b"<details><summary>copies on its edges: ");
        page.long(copies);
        page.put(b"</summary><ul>");
        for split in shown.trace.splits {
            put_split_copies(page, shown, split);
        }
        for rejoin in shown.trace.rejoins {
            put_join_copies(page, shown, rejoin);
        }
        page.put(b"</ul></details>");
    }
}

fn put_all(page: &mut Page, shown: &Shown, spots: &[Spot]) {
    page.field(b"<p>longest way through it: ", shown.longest);
    page.put(b" cycles of delays");
    put_use(page, shown.machine, shown.trace.placed.length, shown.loads);
    page.put(b"</p>");
    put_words(page, shown, spots);
    put_ops(page, shown);
    put_copies(page, shown);
}

fn put_facts(
    alloc: Global,
    page: &mut Page,
    machine: &Machine,
    names: &Names,
    trace: &TraceView,
    notes: &[BlockNote],
    facts: &[OpFact],
) -> Result<(), NoMemory> {
    let ops = trace.placed.clustered.trace.ops.as_slice();
    let loads = loads_of(alloc, machine, trace.placed.length, ops, facts)?;
    let spots = spots_of(alloc, facts)?;
    let bars = bars_of(alloc, facts, spots.as_slice())?;
    let shown = Shown {
        machine,
        names: *names,
        trace: *trace,
        facts,
        loads: loads.as_slice(),
        bars: bars.as_slice(),
        notes,
        longest: longest(facts),
    };
    put_all(page, &shown, spots.as_slice());
    Ok(())
}

/// Puts what stands behind the line of a trace.
pub fn put_inside(
    alloc: Global,
    page: &mut Page,
    machine: &Machine,
    names: &Names,
    trace: &TraceView,
    notes: &[BlockNote],
) -> Result<(), NoMemory> {
    let facts = facts_of(alloc, machine, trace, notes)?;
    put_facts(alloc, page, machine, names, trace, notes, facts.as_slice())
}

fn put_cycles(page: &mut Page, cycles: u64) {
    if cycles > 0 {
        page.put(b" <small>&middot; cycles ");
        page.long(cycles);
        page.put(b"</small>");
    }
}

/// Puts a trace, in which a run spends so many cycles: closed, it is one line. A link to it opens it, since what is linked to stands inside.
pub fn put_trace(
    alloc: Global,
    page: &mut Page,
    machine: &Machine,
    names: &Names,
    trace: &TraceView,
    notes: &[BlockNote],
    cycles: u64,
) -> Result<(), NoMemory> {
    page.put(b"<details class=t");
    put_colour(page, trace.number);
    page.put(b"><summary>");
    put_name(page, names, trace);
    put_cycles(page, cycles);
    page.field(b"</summary><a id=t", trace.number);
    page.put(b"></a>");
    put_inside(alloc, page, machine, names, trace, notes)?;
    page.put(b"</details>\n");
    Ok(())
}
