// Takes one line of a text of words into what stood before it, as specs/Steps.antt says.

ghost use Rattle.std.specs.Prelude.{◌≡◌, ℕ, ◌+◌, ◌*◌, ◌<◌, ◌++◌, ◌∷◌, [], length, get_or, true, false, if◌then◌else◌, Option, Some, None, Ok, Err, IfOk, IfSome, IfNone};
ghost use Rattle.std.specs.Str.{bytes_eq};
ghost use Rattle.vx_isa.specs.Sound.{is_not_zero};
ghost use Rattle.vx_isa.specs.Operations.{cluster_of};
ghost use Rattle.vx_reader.specs.declared.before.Stage.TheVariants.{Operations};
ghost use Rattle.vx_reader.specs.Reading.{Gives};
ghost use Rattle.vx_words.specs.Spelling.{place_text, start_text, quoted_text, idle_text};
ghost use Rattle.vx_reader.specs.Steps.{is_start_stage, is_version_stage, is_memory_stage, is_between_words, is_label_stage, is_operations_stage, is_idle_stage, is_text_stage, is_marked, begins_word, accepted, is_version_line, version_of, version_step, value_from, is_size, Counts, memory_step, entry_at, is_entry, start_step, text_step, label_stood, label_by, label_step, idle_step, word_end_step, is_beyond, operation_by_stage, operation_step, is_operation_line, line_cluster, step};

use crate::before::{Before, Stage};
use crate::fault::LineFault;
use crate::fields::{byte_at, number, signed, skip};
use crate::operation_reader::{field_end, is_number_text, read_operation, texts_of};
use crate::quoted::text_of_line;
use std::alloc::Global;
use vx_base::listed::{Bytes, Listed};
use vx_base::outcome::NoMemory;
use vx_isa::operation::Operation;
use vx_isa::program::Word;
use vx_words::program_text::{push_idle, push_place, push_quoted, push_start, target_of_operation};

fn is_at_start(stage: Stage) -> bool
    ensures { result ≡ is_start_stage stage }
{
    matches!(stage, Stage::Start)
}

fn is_at_version(stage: Stage) -> bool
    ensures { result ≡ is_version_stage stage }
{
    matches!(stage, Stage::Version)
}

fn is_at_memory(stage: Stage) -> bool
    ensures { result ≡ is_memory_stage stage }
{
    matches!(stage, Stage::Memory)
}

fn is_at_texts(stage: Stage) -> bool
    ensures { result ≡ is_text_stage stage }
{
    matches!(stage, Stage::Memory | Stage::Texts)
}

pub fn is_between(stage: Stage) -> bool
    ensures { result ≡ is_between_words stage }
{
    matches!(stage, Stage::Memory | Stage::Texts | Stage::WordEnd)
}

fn is_at_label(stage: Stage) -> bool
    ensures { result ≡ is_label_stage stage }
{
    matches!(stage, Stage::Label)
}

fn is_at_operations(stage: Stage) -> bool
    ensures { result ≡ is_operations_stage stage }
{
    matches!(stage, Stage::Operations)
}

fn is_at_idle(stage: Stage) -> bool
    ensures { result ≡ is_idle_stage stage }
{
    matches!(stage, Stage::Idle)
}

fn mark_at(marks: &[bool], place: usize) -> bool
    ensures { result ≡ get_or marks.now place false }
{
    place < marks.len() && marks[place]
}

fn word_begins(marks: &[bool], before: &Before) -> bool
    ensures { result ≡ begins_word marks.now before.now }
{
    is_at_label(before.stage) || (is_between(before.stage) && !mark_at(marks, before.words.len()))
}

pub fn is_same(text: &[u8], other: &[u8]) -> bool
    ensures { result ≡ bytes_eq text.now other.now }
{
    text == other
}

fn is_version(text: &[u8]) -> bool
    ensures { result ≡ is_version_line text.now }
{
    is_same(text, b".vexwords 1") || is_same(text, b".vexwords 2")
}

// The version that the line of a version says.
fn version_said(text: &[u8]) -> u32
    ensures { result ≡ version_of text.now }
{
    if is_same(text, b".vexwords 2") { 2 } else { 1 }
}

#[tactic(auto, unfolding(crate::specs::Steps::version_step))]
fn take_version(before: &mut Before, text: &[u8]) -> Result<(), LineFault>
    ensures { Gives (λ _. before.new) result (version_step before.old text.now) }
{
    if !is_at_start(before.stage) {
        return Err(LineFault::Code(5));
    }
    if !is_version(text) {
        return Err(LineFault::Code(1));
    }
    before.stage = Stage::Version;
    before.version = version_said(text);
    Ok(())
}

// The value of digits: what is 2^32 or more keeps only that and what is left by a division by 4.
fn counted(digits: &[u8]) -> u64
    ensures { Counts result (value_from 0 digits.now) }
{
    let mut value: u64 = 0;
    for digit in digits {
        value = with_digit(value, (*digit).saturating_sub(48));
    }
    value
}

#[tactic(auto, using(crate::proofs::Counting::counts_short, crate::proofs::Counting::counts_long))]
fn with_digit(value: u64, digit: u8) -> u64
    requires { value < 17179869184 }
    ensures bound { result < 17179869184 }
    ensures counts { (x : ℕ) → Counts value x → Counts result (10 * x + digit) }
{
    let longer = 10 * value + u64::from(digit);
    if longer < 4294967296 {
        longer
    } else {
        4294967296 + longer % 4
    }
}

#[tactic(auto, unfolding(crate::specs::Steps::memory_step))]
fn take_memory(before: &mut Before, digits: &[u8]) -> Result<(), LineFault>
    ensures { Gives (λ _. before.new) result (memory_step before.old digits.now) }
{
    let at_version = is_at_version(before.stage);
    if !is_at_start(before.stage) && !at_version {
        return Err(LineFault::Code(5));
    }
    if !is_number_text(digits) {
        return Err(LineFault::Code(1));
    }
    let size = counted(digits);
    if size % 4 != 0 {
        return Err(LineFault::Code(1));
    }
    if size > 134217728 {
        return Err(LineFault::Code(6));
    }
    if !at_version {
        return Err(LineFault::Code(1));
    }
    before.stage = Stage::Memory;
    before.memory = size as u32;
    Ok(())
}

#[tactic(auto, unfolding(crate::specs::Steps::entry_at))]
fn entry_of(text: &[u8]) -> (u32, i32)
    ensures { result ≡ entry_at text.now }
{
    let (address, rest) = number(skip(text, 6));
    let (value, _) = signed(skip(rest, 3));
    (address, value)
}

fn fits_start(before: &Before, entry: (u32, i32)) -> bool
    ensures { result ≡ is_entry before.now entry }
{
    is_at_memory(before.stage)
        && before.least <= entry.0
        && entry.0 % 4 == 0
        && entry.0 < before.memory
        && entry.1 != 0
}

fn is_start_text(alloc: Global, entry: (u32, i32), text: &[u8]) -> Result<bool, NoMemory>
    ensures { IfOk result (λ same. same ≡ bytes_eq (start_text entry) text.now) }
{
    let mut spelled = Vec::new(alloc);
    push_start(&mut spelled, entry)?;
    Ok(is_same(spelled.as_slice(), text))
}

#[tactic(auto, unfolding(crate::specs::Steps::start_step))]
fn take_start(alloc: Global, before: &mut Before, text: &[u8]) -> Result<(), LineFault>
    ensures { Gives (λ _. before.new) result (start_step before.old text.now) }
{
    let entry = entry_of(text);
    if !fits_start(before, entry) || !is_start_text(alloc, entry, text)? {
        return Err(LineFault::Code(1));
    }
    before.start.push(entry)?;
    before.least = entry.0 + 1;
    Ok(())
}

fn is_quoted(alloc: Global, bytes: &Bytes, text: &[u8]) -> Result<bool, NoMemory>
    ensures { IfOk result (λ same. same ≡ bytes_eq (quoted_text bytes.now) text.now) }
{
    let mut spelled = Vec::new(alloc);
    push_quoted(&mut spelled, bytes.as_slice())?;
    Ok(is_same(spelled.as_slice(), text))
}

#[tactic(auto, unfolding(crate::specs::Steps::text_step))]
fn take_text(alloc: Global, before: &mut Before, text: &[u8]) -> Result<(), LineFault>
    ensures { Gives (λ _. before.new) result (text_step before.old text.now) }
{
    let bytes = text_of_line(alloc, text)?;
    if !is_at_texts(before.stage) || !is_quoted(alloc, &bytes, text)? {
        return Err(LineFault::Code(1));
    }
    before.stage = Stage::Texts;
    before.texts.push(bytes)?;
    Ok(())
}

fn is_label_before(marks: &[bool], before: &Before, place: u32) -> bool
    ensures { result ≡ label_stood marks.now before.now place }
{
    let place = place as usize;
    let here = before.words.len();
    let begun = is_at_label(before.stage)
        || is_at_operations(before.stage)
        || is_at_idle(before.stage);
    mark_at(marks, place) && (place < here || (place == here && begun))
}

#[tactic(auto, unfolding(crate::specs::Steps::label_by))]
fn take_place(marks: &[bool], before: &mut Before, place: u32) -> Result<(), LineFault>
    ensures { Gives (λ _. before.new) result (label_by marks.now before.old place) }
{
    if is_label_before(marks, before, place) {
        return Err(LineFault::Code(5));
    }
    let here = before.words.len();
    if !is_between(before.stage) || place as usize != here || !mark_at(marks, here) {
        return Err(LineFault::Code(1));
    }
    before.stage = Stage::Label;
    Ok(())
}

fn is_place_text(alloc: Global, place: u32, text: &[u8]) -> Result<bool, NoMemory>
    ensures { IfOk result (λ same. same ≡ bytes_eq (place_text place) text.now) }
{
    let mut spelled = Vec::new(alloc);
    push_place(&mut spelled, place as usize)?;
    Ok(is_same(spelled.as_slice(), text))
}

#[tactic(auto, unfolding(crate::specs::Steps::label_step))]
fn take_label(
    alloc: Global,
    marks: &[bool],
    before: &mut Before,
    text: &[u8],
) -> Result<(), LineFault>
    ensures { Gives (λ _. before.new) result (label_step marks.now before.old text.now) }
{
    let (place, _) = number(skip(text, 1));
    if is_place_text(alloc, place, text)? {
        take_place(marks, before, place)
    } else {
        Err(LineFault::Code(1))
    }
}

fn is_idle_text(alloc: Global, cycles: u32, text: &[u8]) -> Result<bool, NoMemory>
    ensures { IfOk result (λ same. same ≡ bytes_eq (idle_text cycles) text.now) }
{
    let mut spelled = Vec::new(alloc);
    push_idle(&mut spelled, cycles)?;
    Ok(is_same(spelled.as_slice(), text))
}

#[tactic(auto, unfolding(crate::specs::Steps::idle_step))]
fn take_idle(
    alloc: Global,
    marks: &[bool],
    before: &mut Before,
    text: &[u8],
) -> Result<(), LineFault>
    ensures { Gives (λ _. before.new) result (idle_step marks.now before.old text.now) }
{
    let (cycles, _) = number(skip(text, 5));
    if !word_begins(marks, before)
        || cycles < 1
        || cycles > 255
        || !is_idle_text(alloc, cycles, text)?
    {
        return Err(LineFault::Code(1));
    }
    before.stage = Stage::Idle;
    before.idle = cycles;
    Ok(())
}

#[tactic(auto, unfolding(crate::specs::Steps::word_end_step))]
fn take_word_end(alloc: Global, marks: &[bool], before: &mut Before) -> Result<(), LineFault>
    ensures { Gives (λ _. before.new) result (word_end_step marks.now before.old) }
{
    if !word_begins(marks, before) && !is_at_operations(before.stage) && !is_at_idle(before.stage) {
        return Err(LineFault::Code(1));
    }
    let ops = std::mem::replace(&mut before.ops, Listed::new(alloc));
    before.words.push(Word {
        ops,
        idle: before.idle,
    })?;
    before.stage = Stage::WordEnd;
    before.idle = 0;
    Ok(())
}

fn is_beyond_words(total: usize, operation: Operation) -> bool
    ensures { result ≡ is_beyond total operation }
{
    match target_of_operation(operation) {
        Some(place) => total <= place as usize,
        None => false,
    }
}

/// The code of the fault of an operation at this place, if it has one.
#[tactic(auto, unfolding(crate::specs::Steps::operation_by_stage))]
fn operation_fault(
    marks: &[bool],
    total: usize,
    before: &Before,
    cluster: u32,
    operation: Operation,
) -> Option<u32>
    ensures fault { IfSome result (λ code. operation_by_stage marks.now total before.now cluster operation ≡ Err code) }
    ensures none { IfNone result (operation_by_stage marks.now total before.now cluster operation ≡ Ok (record before.now { stage = Operations; ops = before.now.ops ++ operation ∷ [] })) }
{
    if before.texts.len() < texts_of(operation) {
        return Some(3);
    }
    if is_beyond_words(total, operation) {
        return Some(4);
    }
    if cluster != operation.cluster()
        || !(word_begins(marks, before) || is_at_operations(before.stage))
    {
        return Some(1);
    }
    None
}

fn add_operation(
    marks: &[bool],
    total: usize,
    before: &mut Before,
    cluster: u32,
    operation: Operation,
) -> Result<(), LineFault>
    ensures { Gives (λ _. before.new) result (operation_by_stage marks.now total before.old cluster operation) }
{
    if let Some(code) = operation_fault(marks, total, before, cluster, operation) {
        return Err(LineFault::Code(code));
    }
    before.stage = Stage::Operations;
    before.ops.push(operation)?;
    Ok(())
}

#[tactic(auto, unfolding(crate::specs::Steps::operation_step))]
fn take_operation(
    alloc: Global,
    marks: &[bool],
    total: usize,
    before: &mut Before,
    cluster: u32,
    text: &[u8],
) -> Result<(), LineFault>
    ensures { Gives (λ _. before.new) result (operation_step marks.now total before.old cluster text.now) }
{
    let operation = read_operation(alloc, cluster, text)?;
    add_operation(marks, total, before, cluster, operation)
}

/// The cluster of a line that begins with `cK` and a blank.
pub fn cluster_of_line(text: &[u8]) -> Option<u32>
    ensures { result ≡ (if is_operation_line text.now then Some (line_cluster text.now) else None) }
{
    let digit = byte_at(text, 1);
    if byte_at(text, 0) == b'c' && digit >= 48 && digit <= 51 && byte_at(text, 2) == b' ' {
        Some(u32::from(digit - 48))
    } else {
        None
    }
}

// Takes one line into what stood before it, or gives the code of its fault.
#[tactic(auto, unfolding(crate::specs::Steps::step))]
fn take(
    alloc: Global,
    marks: &[bool],
    total: usize,
    before: &mut Before,
    text: &[u8],
) -> Result<(), LineFault>
    ensures { Gives (λ _. before.new) result (step marks.now total before.old text.now) }
{
    if let Some(cluster) = cluster_of_line(text) {
        return take_operation(alloc, marks, total, before, cluster, skip(text, 3));
    }
    if is_same(text, b";;") {
        return take_word_end(alloc, marks, before);
    }
    let field = &text[..field_end(text)];
    if is_same(field, b".vexwords") {
        take_version(before, text)
    } else if is_same(field, b".memory") {
        take_memory(before, skip(text, 8))
    } else if is_same(field, b".word") {
        take_start(alloc, before, text)
    } else if is_same(field, b".text") {
        take_text(alloc, before, text)
    } else if is_same(field, b"xnop") {
        take_idle(alloc, marks, before, text)
    } else {
        take_label(alloc, marks, before, text)
    }
}

/// What stood before the next line, or the code of this line's fault.
pub fn take_line(
    alloc: Global,
    marks: &[bool],
    total: usize,
    before: Before,
    text: &[u8],
) -> Result<Before, LineFault>
    ensures { Gives (λ x. x) result (step marks.now total before text.now) }
{
    let mut before = before;
    take(alloc, marks, total, &mut before, text)?;
    Ok(before)
}
