// Reads a text of words: line by line, in time proportional to the text.

ghost use Rattle.std.specs.Prelude.{◌≡◌, ◌≢◌, ℕ, ◌+◌, ◌-◌, ◌<◌, ◌≤◌, ◌∷◌, ◌^◌, length, take, get_or, false, ◌||◌, ◌==◌, Ok, OnOk, IfOk};
ghost use Rattle.std.specs.List.{list_any, prefix_len};
ghost use Rattle.std.specs.Option.{option_map_or};
ghost use Rattle.vx_reader.specs.Laws.{IsProgram};
ghost use Rattle.vx_words.specs.Spelling.{names, spelling, Spells};
ghost use Rattle.vx_reader.specs.Steps.{beginning};
ghost use Rattle.vx_reader.specs.Text.{lines, is_not_feed, is_word_end, word_count, line_operation, line_names, marks_from, run_lines, program_of, ended, end_bytes, reading, Reads, Finds, text_fault};

use crate::before::{Before, Stage};
use crate::fault::{LineFault, WordsFault};
use crate::fields::skip;
use crate::operation_reader::read_operation;
use crate::steps::{cluster_of_line, is_between, is_same, take_line};
use std::alloc::Global;
use vx_base::listed::Listed;
use vx_base::outcome::NoMemory;
use vx_isa::operation::Operation;
use vx_isa::program::WordProgram;
use vx_words::program_text::target_of_operation;

// How many bytes stand before the first line feed.
fn line_end(text: &[u8]) -> usize
    ensures length { result ≤ length text.now }
    ensures end { result ≡ prefix_len is_not_feed text.now }
{
    for (place, byte) in text.iter().enumerate() {
        if *byte == 10 {
            return place;
        }
    }
    text.len()
}

// The first line, without its line feed, and what stands behind it.
#[tactic(auto, using(crate::proofs::LineLemmas::lines_first))]
fn next_line(text: &[u8]) -> (&[u8], &[u8])
    requires { 0 < length text.now }
    ensures lines { lines text.now ≡ result.0.now ∷ lines result.1.now }
    ensures shorter { length result.1.now < length text.now }
{
    let end = line_end(text);
    (&text[..end], skip(text, end + 1))
}

// How many lines `;;` a text has.
fn count_words(text: &[u8]) -> usize
    ensures bound { result ≤ length text.now }
    ensures count { result ≡ word_count (lines text.now) }
{
    let mut count = 0;
    let mut rest = text;
    'lines: while !rest.is_empty() {
        let (line, after) = next_line(rest);
        if is_same(line, b";;") {
            count += 1;
        }
        rest = after;
    }
    count
}

// The operation of a line that has the full form of one.
#[tactic(auto, unfolding(crate::specs::Text::line_operation))]
fn operation_of_line(alloc: Global, line: &[u8]) -> Result<Option<Operation>, NoMemory>
    ensures { IfOk result (λ operation. operation ≡ line_operation line.now) }
{
    match cluster_of_line(line) {
        None => Ok(None),
        Some(cluster) => match read_operation(alloc, cluster, skip(line, 3)) {
            Ok(operation) => {
                let stands = cluster == operation.cluster();
                Ok(if stands { Some(operation) } else { None })
            },
            Err(LineFault::Code(_)) => Ok(None),
            Err(LineFault::Memory) => Err(NoMemory),
        },
    }
}

fn place_named(alloc: Global, line: &[u8]) -> Result<Option<u32>, NoMemory>
    ensures { IfOk result (λ place. (p : ℕ) → line_names p line.now ≡ option_map_or (λ q. q == p) place false) }
{
    match operation_of_line(alloc, line)? {
        Some(operation) => Ok(target_of_operation(operation)),
        None => Ok(None),
    }
}

fn mark(marks: &mut [bool], place: Option<u32>)
    ensures { (p : ℕ) → p < length marks.old →
        get_or marks.new p false ≡ (get_or marks.old p false || option_map_or (λ q. q == p) place false) }
{
    if let Some(place) = place {
        let place = place as usize;
        if place < marks.len() {
            marks[place] = true;
        }
    }
}

fn mark_lines(alloc: Global, marks: &mut [bool], text: &[u8]) -> Result<(), NoMemory>
    ensures { OnOk result ((p : ℕ) → p < length marks.old →
        get_or marks.new p false ≡ (get_or marks.old p false || list_any (line_names p) (lines text.now))) }
{
    let mut rest = text;
    'lines: while !rest.is_empty() {
        let (line, after) = next_line(rest);
        mark(marks, place_named(alloc, line)?);
        rest = after;
    }
    Ok(())
}

// For each place up to the number of words whether an operation of the text names it.
fn marks_by_place(alloc: Global, text: &[u8], total: usize) -> Result<Vec<bool>, NoMemory>
    requires { total < 4294967296 }
    ensures length { IfOk result (λ marks. length marks.items ≡ total + 1) }
    ensures named { IfOk result (λ marks. (p : ℕ) → p < total + 1 → get_or marks.items p false ≡ list_any (line_names p) (lines text.now)) }
{
    let mut marks = vec![in alloc; false; total + 1]?;
    mark_lines(alloc, &mut marks, text)?;
    Ok(marks)
}

#[tactic(auto, using(crate::proofs::LineLemmas::marks_from_places))]
fn marks_of(alloc: Global, text: &[u8], total: usize) -> Result<Vec<bool>, NoMemory>
    requires { total < 4294967296 }
    ensures { IfOk result (λ marks. marks.items ≡ marks_from 0 (total + 1) (lines text.now)) }
{
    marks_by_place(alloc, text, total)
}

// The lines of a text, taken one by one, and the number of the line behind them.
fn read_lines(
    alloc: Global,
    marks: &[bool],
    total: usize,
    text: &[u8],
) -> Result<(Before, u32), WordsFault>
    requires { length text.now < 4294967290 }
    ensures before { Reads (λ x. x.0) result (run_lines marks.now total 1 beginning (lines text.now)) }
    ensures number { IfOk result (λ x. x.1 ≡ length (lines text.now) + 1) }
{
    let mut before = Before::beginning(alloc);
    let mut number: u32 = 1;
    let mut rest = text;
    'lines: while !rest.is_empty() {
        let (line, after) = next_line(rest);
        match take_line(alloc, marks, total, before, line) {
            Ok(next) => before = next,
            Err(LineFault::Code(code)) => return Err(WordsFault::Bad { code, line: number }),
            Err(LineFault::Memory) => return Err(WordsFault::NoMemory),
        }
        rest = after;
        number += 1;
    }
    Ok((before, number))
}

// The program that stood before the last line.
fn finish(before: Before, number: u32) -> Result<WordProgram, WordsFault>
    ensures { Reads (λ w. w) result (ended number (Ok before)) }
{
    if !is_between(before.stage) {
        return Err(WordsFault::Bad {
            code: 1,
            line: number,
        });
    }
    Ok(WordProgram {
        version: before.version,
        memory: before.memory,
        start: before.start,
        texts: before.texts,
        words: before.words,
    })
}

#[tactic(auto, unfolding(crate::specs::Text::reading))]
fn read_text(alloc: Global, bytes: &[u8]) -> Result<WordProgram, WordsFault>
    ensures small { IfOk result (λ _. length bytes.now < 2 ^ 32) }
    ensures exact { Reads (λ w. w) result (reading bytes.now) }
{
    if bytes.len() >= 4294967290 {
        return Err(WordsFault::NoMemory);
    }
    if !bytes.ends_with(b"\n.end\n") {
        return Err(WordsFault::Bad { code: 7, line: 0 });
    }
    let front = &bytes[..bytes.len() - 5];
    let total = count_words(front);
    let marks = marks_of(alloc, front, total)?;
    let (before, number) = read_lines(alloc, marks.as_slice(), total, front)?;
    finish(before, number)
}

/// The program that the bytes are the text of. A text of nearly 4 GiB or more is refused as if memory ran out.
pub fn read(alloc: Global, bytes: &[u8]) -> Result<WordProgram, WordsFault>
    // The program is sound, and the bytes are its text.
    ensures spelled { IfOk result (λ program. Spells bytes.now program) }
    // What a sound program is spelled as is read as that program, unless memory runs out.
    ensures only { (w : WordProgram) → IsProgram w → bytes.now ≡ spelling w → Reads (λ program. program) result (Ok w) }
    // `Bad` comes exactly where a line is faulty, with the first such line and its first code.
    ensures fault { Finds result (text_fault bytes.now) }
    // The reading of the bytes, as a function of them: the program or the first faulty line.
    ensures reads { Reads (λ program. program) result (reading bytes.now) }
{
    read_text(alloc, bytes)
}
