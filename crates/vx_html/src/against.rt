// Two machines side by side: the sums of both, and trace by trace what each made of the same blocks.

use crate::head::{Asked, Totals};
use crate::traces::{copies_of, put_name};
use crate::words::put_colour;
use vx_flow::graph::BlockId;
use vx_page::operations::put_function;
use vx_page::page::Page;
use vx_page::view::{Names, TraceView};

/// Whether two traces are of the same blocks.
pub fn agree(one: &TraceView, other: &TraceView) -> bool {
    one.function == other.function && same_blocks(one.blocks, other.blocks)
}

fn same_blocks(one: &[BlockId], other: &[BlockId]) -> bool {
    if one.len() != other.len() {
        return false;
    }
    for (place, block) in one.iter().enumerate() {
        match other.get(place) {
            Some(beside) => {
                if *beside != *block {
                    return false;
                }
            }
            None => return false,
        }
    }
    true
}

fn put_both(page: &mut Page, name: &[u8], one: u64, other: u64) {
    page.put(if one == other {
        b"<tr><th>"
    } else {
        b"<tr class=c><th>"
    });
    page.put(name);
    page.put(b"<td>");
    page.long(one);
    page.put(b"<td>");
    page.long(other);
}

/// Puts the sums of both machines; those that differ are marked.
pub fn put_both_totals(
    page: &mut Page,
    one: &Asked,
    other: &Asked,
    sums: &Totals,
    beside: &Totals,
) {
    page.put(b"<div class=wide><table class=s><tr><th><th>");
    page.source(one.machine);
    page.put(b"<th>");
    page.source(other.machine);
    put_both(
        page,
        b"words of the program",
        u64::from(sums.words),
        u64::from(beside.words),
    );
    put_both(
        page,
        b"traces",
        u64::from(sums.traces),
        u64::from(beside.traces),
    );
    put_both(
        page,
        b"words of traces",
        sums.trace_words,
        beside.trace_words,
    );
    put_both(
        page,
        b"operations of traces",
        sums.operations,
        beside.operations,
    );
    put_both(
        page,
        b"copies on edges",
        u64::from(sums.copies),
        u64::from(beside.copies),
    );
    put_both(
        page,
        b"spilled values",
        u64::from(sums.spilled),
        u64::from(beside.spilled),
    );
    page.put(b"</table></div>\n");
}

fn put_lengths(page: &mut Page, one: &TraceView, other: &TraceView) {
    page.field(b" <small>trace ", other.number);
    page.field(b" there &middot; words ", one.placed.length);
    page.field(b" and ", other.placed.length);
    page.put(b" &middot; copies ");
    page.long(copies_of(one));
    page.put(b" and ");
    page.long(copies_of(other));
    page.put(b"</small>");
}

/// Puts the front of two traces of the same blocks.
pub fn put_pair_front(page: &mut Page, names: &Names, one: &TraceView, other: &TraceView) {
    page.put(b"<details class=t");
    put_colour(page, one.number);
    page.field(b"><summary><b>trace ", one.number);
    page.put(b"</b> ");
    put_function(page, names, one.function);
    put_lengths(page, one, other);
    page.put(b"</summary><div class=two><div>");
}

/// Puts what stands between the two.
pub fn put_pair_middle(page: &mut Page) {
    page.put(b"</div><div>");
}

/// Puts the end of two traces.
pub fn put_pair_end(page: &mut Page) {
    page.put(b"</div></div></details>\n");
}

/// Puts the front of a trace that the other machine has not.
pub fn put_lone_front(page: &mut Page, names: &Names, trace: &TraceView) {
    page.put(b"<details class=t");
    put_colour(page, trace.number);
    page.put(b"><summary>there alone: ");
    put_name(page, names, trace);
    page.put(b"</summary><div><div>");
}
