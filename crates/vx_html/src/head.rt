// What stands on the page in front of the traces: its name, the source with numbers of lines, the machine, what was asked, the sums, and
// what the marks mean.

use crate::style::put_style;
use vx_machine::Machine;
use vx_page::page::Page;

/// The sums of a compiled program, as its report has them.
#[derive(Clone, Copy)]
pub struct Totals {
    /// Words of the program.
    pub words: u32,
    /// Traces.
    pub traces: u32,
    /// Words of the traces.
    pub trace_words: u64,
    /// Operations of the traces.
    pub operations: u64,
    /// Operations copied onto edges, counted for each edge.
    pub copies: u32,
    /// Values that are kept in slots.
    pub spilled: u32,
}

/// What was asked.
#[derive(Clone, Copy)]
pub struct Asked<'a> {
    /// The name of the source's file.
    pub source: &'a [u8],
    /// The name of the machine's file; that of the default machine where none was named.
    pub machine: &'a [u8],
    /// The name of the file of a machine beside it; empty where none was named.
    pub against: &'a [u8],
    /// The name of the profile's file; empty where none was named.
    pub profile: &'a [u8],
    /// How many operations may be copied.
    pub growth: u32,
    /// How many turns of loops are taken together.
    pub turns: u32,
}

/// Puts the front of a page.
pub fn put_front(page: &mut Page, asked: &Asked) {
    page.put(
        b"<!doctype html>\n<html lang=en><meta charset=utf-8><meta name=viewport content=\"width=device-width,initial-scale=1\"><title>",
    );
    page.source(asked.source);
    page.put(b"</title>");
    put_style(page);
    page.put(b"<h1>");
    page.source(asked.source);
    page.put(
        b"</h1><nav><a href=#source>source</a><a href=#machine>machine</a><a href=#marks>marks</a><a href=#time>time</a><a href=#blocks>blocks</a><a href=#traces>traces</a></nav>\n",
    );
}

/// Puts what was asked.
pub fn put_asked(page: &mut Page, asked: &Asked) {
    page.put(b"<p>machine <b>");
    page.source(asked.machine);
    page.put(b"</b>, ");
    if !asked.against.is_empty() {
        page.put(b"against <a href=#against>");
        page.source(asked.against);
        page.put(b"</a>, ");
    }
    if asked.profile.is_empty() {
        page.put(b"no profile");
    } else {
        page.put(b"profile <b>");
        page.source(asked.profile);
        page.put(b"</b>");
    }
    page.field(b", growth <b>", asked.growth);
    page.put(b"</b>");
    if asked.turns > 1 {
        page.field(b", turns of loops taken together <b>", asked.turns);
        page.put(b"</b>");
    }
    page.put(b"</p>\n");
}

fn put_total(page: &mut Page, name: &[u8], number: u64) {
    page.put(b"<tr><th>");
    page.put(name);
    page.put(b"<td>");
    page.long(number);
}

/// Puts the sums.
pub fn put_totals(page: &mut Page, totals: &Totals) {
    page.put(b"<div class=wide><table class=s>");
    put_total(page, b"words of the program", u64::from(totals.words));
    put_total(page, b"traces", u64::from(totals.traces));
    put_total(page, b"words of traces", totals.trace_words);
    put_total(page, b"operations of traces", totals.operations);
    put_total(page, b"copies on edges", u64::from(totals.copies));
    put_total(page, b"spilled values", u64::from(totals.spilled));
    page.put(b"</table></div>\n");
}

fn put_line(page: &mut Page, number: u32, line: &[u8]) {
    page.field(b"<i>", number);
    page.put(b"</i>");
    page.source(line);
    page.put(b"\n");
}

/// The source without the line feed of its last line.
fn without_end(source: &[u8]) -> &[u8] {
    match source.split_last() {
        Some((last, front)) => { if *last == 10 { front } else { source } }
        None => source,
    }
}

/// Puts the lines of the source with their numbers.
pub fn put_source(page: &mut Page, source: &[u8]) {
    let mut number: u32 = 0;
    page.put(b"<h2 id=source>Source</h2><details open><summary>as it was read</summary><pre>");
    for line in without_end(source).split(|byte| *byte == 10) {
        number = number.saturating_add(1);
        put_line(page, number, line);
    }
    page.put(b"</pre></details>\n");
}

fn put_number(page: &mut Page, name: &[u8], number: u32) {
    page.put(b"<tr><th>");
    page.put(name);
    page.field(b"<td>", number);
}

fn put_units(page: &mut Page, machine: &Machine) {
    put_number(page, b"clusters", machine.clusters());
    put_number(page, b"issue", machine.issue());
    put_number(page, b"alus", machine.alus());
    put_number(page, b"multipliers", machine.multipliers());
    put_number(page, b"memory_units", machine.memory_units());
    put_number(page, b"registers", machine.registers());
    put_number(page, b"branch_registers", machine.branch_registers());
    put_number(page, b"read_ports", machine.read_ports());
}

fn put_times(page: &mut Page, machine: &Machine) {
    put_number(page, b"write_ports", machine.write_ports());
    put_number(page, b"copy_paths", machine.copy_paths());
    put_number(page, b"latency_alu", machine.latency_alu());
    put_number(page, b"latency_compare", machine.latency_compare());
    put_number(page, b"latency_multiply", machine.latency_multiply());
    put_number(page, b"latency_load", machine.latency_load());
    put_number(page, b"latency_divide", machine.latency_divide());
    put_number(page, b"latency_copy", machine.latency_copy());
    put_number(page, b"branches", machine.branches());
}

/// Puts the numbers of a machine.
pub fn put_machine(page: &mut Page, machine: &Machine) {
    page.put(b"<h2 id=machine>Machine</h2><div class=two><table>");
    put_units(page, machine);
    page.put(b"</table><table>");
    put_times(page, machine);
    page.put(b"</table></div>\n");
}

/// Puts what the marks of the tables mean.
pub fn put_marks(page: &mut Page) {
    page.put(
        b"<h2 id=marks>Marks</h2><details><summary>how to read a trace</summary><ul><li>A row is a word, a column a cluster. Each operation has its number in the trace, its block, and the word in which its result has landed. Its colour is that of its block. A dashed box is an empty slot; units and ports in use stand beside it, those all in use in red. A bar with the number of an operation runs from its word to the last in which its result has not landed.",
    );
    page.put(
        b"<li><b>&uarr;7</b> was moved above the branch 7, which stood before it. <b>&darr;7</b> was moved below the branch 7, and is copied onto its edge. <b>&uarr;block 7</b> was moved above the place where edges enter block 7, and is copied onto each. <b>&times;3</b> says that it passed so many, this one first. <b>copy</b> brings a value to another cluster. <b>dismissible</b> may load from outside of its array, where a branch above it would have left.",
    );
    page.put(
        b"<li>A red edge is on a longest way through the trace. What an operation waits for stands in its line behind the table, and under the pointer.",
    );
    page.put(
        b"<li>&#8627; is where edges come in, &#8626; where a branch leaves.</ul></details>\n",
    );
}

/// Puts the head of a section.
pub fn put_section(page: &mut Page, name: &[u8], title: &[u8]) {
    page.put(b"<h2 id=");
    page.put(name);
    page.put(b">");
    page.put(title);
    page.put(b"</h2>\n");
}
