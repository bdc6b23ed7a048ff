// A trace word by word as a table: a row for each word, a column for each cluster, and between the rows where edges come in and leave.

ghost use Rattle.std.specs.Prelude.{◌≤◌, length};

use crate::bars::{lanes_of, put_bars, put_bars_between};
use crate::loads::{Load, copies_in, load_at};
use crate::whys::{Shown, put_why};
use vx_dep::copies::{EdgeCopies, Rejoin, word_at};
use vx_flow::graph::Edge;
use vx_page::facts::{OpFact, Passed};
use vx_page::notes::{BlockNote, edges_of, note_of};
use vx_page::operations::{put_exit, put_trace_op};
use vx_page::page::Page;
use vx_page::spots::Spot;

/// How many of the first of these stand in a word.
fn count_in_word(spots: &[Spot], word: u32) -> usize
    ensures { result ≤ length spots.now }
{
    for (count, spot) in spots.iter().enumerate() {
        if spot.word != word {
            return count;
        }
    }
    spots.len()
}

/// How many of the first of these stand on a cluster.
fn count_on_cluster(spots: &[Spot], cluster: u32) -> usize
    ensures { result ≤ length spots.now }
{
    for (count, spot) in spots.iter().enumerate() {
        if spot.cluster != cluster {
            return count;
        }
    }
    spots.len()
}

/// The first of these, those in a word.
fn in_word(spots: &[Spot], word: u32) -> &[Spot] {
    let count = count_in_word(spots, word);
    &spots[..count]
}

/// Those behind the first ones, which are in a word.
fn behind_word(spots: &[Spot], word: u32) -> &[Spot] {
    let count = count_in_word(spots, word);
    &spots[count..]
}

/// The first of these, those on a cluster.
fn on_cluster(spots: &[Spot], cluster: u32) -> &[Spot] {
    let count = count_on_cluster(spots, cluster);
    &spots[..count]
}

/// Those behind the first ones, which are on a cluster.
fn behind_cluster(spots: &[Spot], cluster: u32) -> &[Spot] {
    let count = count_on_cluster(spots, cluster);
    &spots[count..]
}

/// The hue of a number, in degrees.
pub(crate) fn hue_of(number: u32) -> u32 {
    number.wrapping_mul(47) % 360
}

/// The colour of a number.
pub(crate) fn put_colour(page: &mut Page, number: u32) {
    page.field(b" style=--h:", hue_of(number));
}

fn put_classes(page: &mut Page, shown: &Shown, fact: &OpFact) {
    if fact.depth.saturating_add(fact.height) >= shown.longest {
        page.put(b" c");
    }
    if fact.above_split.is_some() {
        page.put(b" u");
    }
    if fact.below_split.is_some() || fact.above_join.is_some() {
        page.put(b" d");
    }
}

fn put_mark(page: &mut Page, mark: &[u8], passed: Option<Passed>) {
    if let Some(passed) = passed {
        page.put(b" <u>");
        page.field(mark, passed.first);
        if passed.count > 1 {
            page.field(b" &times;", passed.count);
        }
        page.put(b"</u>");
    }
}

fn put_kinds(page: &mut Page, fact: &OpFact) {
    if fact.is_across {
        page.put(b" <u>copy</u>");
    }
    if fact.is_dismissible {
        page.put(b" <u>dismissible</u>");
    }
}

/// Puts how an operation got where it stands, and where its result lands.
pub(crate) fn put_marks(page: &mut Page, fact: &OpFact) {
    put_mark(page, b"&uarr;", fact.above_split);
    put_mark(page, b"&darr;", fact.below_split);
    put_mark(page, b"&uarr;block ", fact.above_join);
    put_kinds(page, fact);
    if fact.latency > 0 {
        page.field(b" <q>", fact.word.saturating_add(fact.latency));
        page.put(b"</q>");
    }
}

fn put_chip(page: &mut Page, shown: &Shown, place: u32) {
    if let (Some(fact), Some(op)) = (
        shown.facts.get(place as usize),
        shown.ops().get(place as usize),
    ) {
        page.put(b"<p class=\"o");
        put_classes(page, shown, fact);
        page.put(b"\"");
        put_colour(page, fact.block);
        page.put(b" title=\"");
        put_why(page, shown, place);
        page.field(b"\"><b>", place);
        page.put(b"</b> ");
        put_trace_op(page, &shown.names, op);
        page.field(b" <i>", fact.block);
        page.put(b"</i>");
        put_marks(page, fact);
    }
}

fn put_used(page: &mut Page, name: &[u8], used: u32, most: u32) {
    if used > 0 {
        page.put(if used >= most { b" <b>" } else { b" <span>" });
        page.put(name);
        page.field(b" ", used);
        page.field(b"/", most);
        page.put(if used >= most { b"</b>" } else { b"</span>" });
    }
}

fn put_units(page: &mut Page, shown: &Shown, load: &Load) {
    page.put(b"<small>");
    put_used(page, b"alu", load.alus, shown.machine.alus());
    put_used(page, b"mul", load.multipliers, shown.machine.multipliers());
    put_used(
        page,
        b"mem",
        load.memory_units,
        shown.machine.memory_units(),
    );
    put_used(page, b"reads", load.read_ports, shown.machine.read_ports());
    put_used(
        page,
        b"writes",
        load.write_ports,
        shown.machine.write_ports(),
    );
    if shown.machine.branches() > 1 {
        put_used(page, b"branches", load.splits, shown.machine.branches());
    }
    page.put(b"</small>");
}

fn put_cell(page: &mut Page, shown: &Shown, word: u32, cluster: u32, here: &[Spot]) {
    page.put(b"<td>");
    for spot in here {
        put_chip(page, shown, spot.place);
    }
    let load = load_at(shown.loads, shown.machine.clusters(), word, cluster);
    page.put(b"<p class=f>");
    for _slot in load.slots..shown.machine.issue() {
        page.put(b"<s></s>");
    }
    put_units(page, shown, &load);
}

fn put_copies_cell(page: &mut Page, shown: &Shown, word: u32) {
    let clusters = shown.machine.clusters();
    if clusters > 1 {
        page.put(b"<td class=k><p class=f><small>");
        put_used(
            page,
            b"copies",
            copies_in(shown.loads, clusters, word),
            shown.machine.copy_paths(),
        );
        page.put(b"</small>");
    }
}

fn put_full_row(page: &mut Page, shown: &Shown, word: u32, here: &[Spot]) {
    let mut rest = here;
    page.field(b"<tr><th>", word);
    put_bars(page, shown, word);
    for cluster in 0..shown.machine.clusters() {
        put_cell(page, shown, word, cluster, on_cluster(rest, cluster));
        rest = behind_cluster(rest, cluster);
    }
    put_copies_cell(page, shown, word);
}

/// How many columns stand behind that of the words.
fn columns(shown: &Shown) -> u32 {
    let clusters = shown.machine.clusters();
    if clusters > 1 {
        clusters.saturating_add(1)
    } else {
        1
    }
}

fn put_span(page: &mut Page, shown: &Shown) {
    page.field(b"<td colspan=", columns(shown));
    page.put(b">");
}

fn put_empty_row(page: &mut Page, shown: &Shown, word: u32, behind: &[Spot]) {
    page.field(b"<tr class=e><th>", word);
    put_bars(page, shown, word);
    put_span(page, shown);
    match behind.first() {
        Some(spot) => {
            page.field(b"empty: op ", spot.place);
            page.put(b" ");
            put_why(page, shown, spot.place);
        }
        None => page.put(b"empty: results land"),
    }
}

fn put_edge(page: &mut Page, edge: Edge) {
    page.field(b" ", edge.from);
    page.field(b"&rarr;", edge.to);
}

fn put_places(page: &mut Page, places: &[u32]) {
    if places.is_empty() {
        return;
    }
    page.put(b", with copies of");
    for place in places {
        page.field(b" ", *place);
    }
}

fn put_entry(page: &mut Page, shown: &Shown, rejoin: &Rejoin) {
    let joins = shown.trace.placed.clustered.trace.joins.as_slice();
    page.put(b"<tr class=j><th>&#8627;");
    put_bars_between(page, shown, rejoin.word);
    put_span(page, shown);
    page.field(b"join of block ", rejoin.block);
    page.put(b": entered by");
    for edge in edges_of(joins, rejoin.block) {
        put_edge(page, *edge);
    }
    put_places(page, rejoin.copies.as_slice());
}

fn put_entries(page: &mut Page, shown: &Shown, word: u32) {
    for rejoin in shown.trace.rejoins {
        if rejoin.word == word {
            put_entry(page, shown, rejoin);
        }
    }
}

fn put_leave(page: &mut Page, shown: &Shown, word: u32, split: &EdgeCopies) {
    page.put(b"<tr class=l><th>&#8626;");
    put_bars_between(page, shown, word.saturating_add(1));
    put_span(page, shown);
    page.field(b"branch ", split.split);
    page.put(b" leaves by the edge");
    put_edge(page, split.edge);
    put_places(page, split.copies.as_slice());
    if split.drain > 0 {
        page.field(b", and empty cycles there: ", split.drain);
    }
}

fn put_leaves(page: &mut Page, shown: &Shown, word: u32) {
    let words = shown.trace.placed.words.as_slice();
    for split in shown.trace.splits {
        if word_at(words, split.split) == word {
            put_leave(page, shown, word, split);
        }
    }
}

fn put_heads(page: &mut Page, shown: &Shown) {
    page.put(b"<tr><th>word");
    if !shown.bars.is_empty() {
        page.field(b"<th class=r style=--l:", lanes_of(shown.bars));
        page.put(b">in flight");
    }
    for cluster in 0..shown.machine.clusters() {
        page.field(b"<th>cluster ", cluster);
    }
    if shown.machine.clusters() > 1 {
        page.put(b"<th>paths");
    }
}

fn put_row(page: &mut Page, shown: &Shown, word: u32, here: &[Spot], behind: &[Spot]) {
    put_entries(page, shown, word);
    if here.is_empty() {
        put_empty_row(page, shown, word, behind);
    } else {
        put_full_row(page, shown, word, here);
    }
    put_leaves(page, shown, word);
}

fn put_made_exit(page: &mut Page, note: BlockNote) {
    match note.made {
        Some(made) => page.field(b"to block ", made.edge.to),
        None => page.put(b"nowhere"),
    }
}

/// Puts how the last block of a trace ends.
fn put_end(page: &mut Page, shown: &Shown) {
    if let Some(last) = shown.trace.blocks.last() {
        page.put(b"<tr class=x><th>&#8629;");
        put_bars_between(page, shown, shown.trace.placed.length);
        put_span(page, shown);
        page.field(b"end of block ", *last);
        page.put(b": ");
        match shown.names.blocks.get(*last as usize) {
            Some(block) => put_exit(page, &shown.names, &block.exit),
            None => put_made_exit(page, note_of(shown.notes, *last)),
        }
    }
}

/// Puts the words of a trace as a table, where its operations stand so.
pub fn put_words(page: &mut Page, shown: &Shown, spots: &[Spot]) {
    let mut rest = spots;
    page.put(b"<div class=wide><table class=w>");
    put_heads(page, shown);
    for word in 0..shown.trace.placed.length {
        let behind = behind_word(rest, word);
        put_row(page, shown, word, in_word(rest, word), behind);
        rest = behind;
    }
    put_entries(page, shown, shown.trace.placed.length);
    put_end(page, shown);
    page.put(b"</table></div>");
}
