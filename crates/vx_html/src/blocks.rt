// The blocks of a function on the page: the operations of each, in the colour of the trace that took it, and those that were made.

use crate::words::put_colour;
use vx_flow::graph::{Block, Graph};
use vx_page::notes::{BlockNote, MadeAt, note_of};
use vx_page::operations::{put_exit, put_function, put_op};
use vx_page::page::{Page, small};
use vx_page::view::Names;
use vx_profile::counts::Counts;

fn put_owner(page: &mut Page, owner: Option<u32>) {
    if let Some(trace) = owner {
        page.field(b" <a href=#t", trace);
        page.field(b">trace ", trace);
        page.put(b"</a>");
    }
}

fn put_head(page: &mut Page, number: u32, owner: Option<u32>) {
    page.put(b"<div class=b");
    if let Some(trace) = owner {
        put_colour(page, trace);
    }
    page.field(b"><h4>block ", number);
    page.put(b" <small>");
    put_owner(page, owner);
}

fn put_block(
    page: &mut Page,
    names: &Names,
    number: u32,
    count: u64,
    owner: Option<u32>,
    block: &Block,
) {
    put_head(page, number, owner);
    page.put(b" &middot; count ");
    page.long(count);
    page.put(b"</small></h4>");
    for op in block.ops.as_slice() {
        page.put(b"<p>");
        put_op(page, names, op);
    }
    page.put(b"<p><em>");
    put_exit(page, names, &block.exit);
    page.put(b"</em></div>");
}

fn put_made(page: &mut Page, number: u32, note: &BlockNote, made: MadeAt) {
    put_head(page, number, note.owner);
    page.put(b" &middot; made</small></h4><p>copies of operations of ");
    put_owner(page, Some(made.trace));
    page.field(b": ", note.ops);
    page.field(b"<p>on the edge ", made.edge.from);
    page.field(b"&rarr;", made.edge.to);
    page.put(b"</div>");
}

fn put_all_made(page: &mut Page, notes: &[BlockNote]) {
    for (number, note) in notes.iter().enumerate() {
        if let Some(made) = note.made {
            put_made(page, small(number), note, made);
        }
    }
}

fn put_made_count(page: &mut Page, made: usize) {
    if made > 0 {
        page.field(b", and made for copies ", small(made));
    }
}

/// Puts the blocks of a function, where this is known of them.
pub fn put_blocks(
    page: &mut Page,
    names: &Names,
    function: u32,
    counts: &Counts,
    graph: &Graph,
    notes: &[BlockNote],
) {
    page.put(b"<details class=n><summary><b>");
    put_function(page, names, function);
    page.field(b"</b> <small>blocks ", graph.blocks.len() as u32);
    put_made_count(page, notes.len().saturating_sub(graph.blocks.len()));
    page.put(b"</small></summary><div class=g>");
    for (number, block) in graph.blocks.as_slice().iter().enumerate() {
        let count = counts.of_block(function, small(number));
        let owner = note_of(notes, small(number)).owner;
        put_block(page, names, small(number), count, owner, block);
    }
    put_all_made(page, notes);
    page.put(b"</div></details>\n");
}
