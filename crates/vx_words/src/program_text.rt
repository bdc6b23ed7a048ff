// Writes the text of a program of words. specs/Spelling.antt says what that text is.

ghost use Rattle.std.specs.Prelude.{◌≡◌, ℕ, ◌<◌, ◌≤◌, ◌/◌, ◌++◌, true, length, get_or, false, ◌||◌, vec_len, OnOk, IfOk};
ghost use Rattle.std.specs.List.{flat_map, list_any};
ghost use Rattle.vx_isa.specs.Sound.{is_sound};
ghost use Rattle.vx_words.specs.Spelling.{Spells, target_of, names, is_named, hexadecimal_digit, byte_text, quoted_text, text_line, start_text, start_line, idle_text, word_lines, operation_line, place_text, words_from, header, spelling};

use crate::operation_text::{
    push_bytes, push_label, push_named_number, push_operation_line, push_signed,
};
use std::alloc::Global;
use vx_base::listed::Bytes;
use vx_base::outcome::NoMemory;
use vx_isa::operation::Operation;
use vx_isa::program::{Word, WordProgram};

/// The place that an operation names, if it names one.
pub fn target_of_operation(operation: Operation) -> Option<u32>
    ensures { result ≡ target_of operation }
{
    match operation {
        Operation::Goto { target } => Some(target),
        Operation::BranchOn {
            test: _,
            taken_at_one: _,
            target,
        } => Some(target),
        Operation::Call { target } => Some(target),
        _ => None,
    }
}

/// Marks the places that a word's operations name, as far as the list of marks reaches.
fn mark_named(named: &mut [bool], operations: &[Operation])
    ensures { (p : ℕ) → p < length named.old →
        get_or named.new p false ≡ (get_or named.old p false || list_any (names p) operations.now) }
{
    for operation in operations {
        if let Some(place) = target_of_operation(*operation) {
            let place = place as usize;
            if place < named.len() {
                named[place] = true;
            }
        }
    }
}

/// For each place below the number of words whether an operation of the program names it.
fn named_places(alloc: Global, words: &[Word]) -> Result<Vec<bool>, NoMemory>
    ensures length { IfOk result (λ named. vec_len named ≡ length words.now) }
    ensures named { IfOk result (λ named. (p : ℕ) → p < length words.now → get_or named.items p false ≡ is_named words.now p) }
{
    let mut named = vec![in alloc; false; words.len()]?;
    for word in words {
        mark_named(&mut named, word.ops.as_slice());
    }
    Ok(named)
}

fn hexadecimal(digit: u8) -> u8
    requires { digit < 16 }
    ensures { result ≡ hexadecimal_digit digit }
{
    if digit < 10 { 48 + digit } else { 87 + digit }
}

fn push_byte(out: &mut Vec<u8>, byte: u8) -> Result<(), NoMemory>
    ensures { OnOk result (out.new.items ≡ out.old.items ++ byte_text byte) }
{
    if byte >= 32 && byte <= 126 && byte != b'"' && byte != b'\\' {
        push_bytes(out, &[byte])
    } else {
        push_bytes(
            out,
            &[b'\\', b'x', hexadecimal(byte / 16), hexadecimal(byte % 16)],
        )
    }
}

/// Puts a text at the end, quoted and behind `.text`.
pub fn push_quoted(out: &mut Vec<u8>, bytes: &[u8]) -> Result<(), NoMemory>
    ensures { OnOk result (out.new.items ≡ out.old.items ++ quoted_text bytes.now) }
{
    push_bytes(out, b".text \"")?;
    for byte in bytes {
        push_byte(out, *byte)?;
    }
    push_bytes(out, b"\"")
}

fn push_text_lines(out: &mut Vec<u8>, texts: &[Bytes]) -> Result<(), NoMemory>
    ensures { OnOk result (out.new.items ≡ out.old.items ++ flat_map text_line texts.now) }
{
    for text in texts {
        push_quoted(out, text.as_slice())?;
        push_bytes(out, b"\n")?;
    }
    Ok(())
}

/// Puts a word of the memory that does not start as 0 at the end, behind `.word`.
pub fn push_start(out: &mut Vec<u8>, entry: (u32, i32)) -> Result<(), NoMemory>
    ensures { OnOk result (out.new.items ≡ out.old.items ++ start_text entry) }
{
    push_named_number(out, b".word ", entry.0)?;
    push_bytes(out, b" = ")?;
    push_signed(out, entry.1)
}

fn push_start_lines(out: &mut Vec<u8>, start: &[(u32, i32)]) -> Result<(), NoMemory>
    ensures { OnOk result (out.new.items ≡ out.old.items ++ flat_map start_line start.now) }
{
    for entry in start {
        push_start(out, *entry)?;
        push_bytes(out, b"\n")?;
    }
    Ok(())
}

fn push_operation_lines(out: &mut Vec<u8>, operations: &[Operation]) -> Result<(), NoMemory>
    ensures { OnOk result (out.new.items ≡ out.old.items ++ flat_map operation_line operations.now) }
{
    for operation in operations {
        push_operation_line(out, *operation)?;
    }
    Ok(())
}

/// Puts an empty time, `xnop n`, at the end.
pub fn push_idle(out: &mut Vec<u8>, cycles: u32) -> Result<(), NoMemory>
    ensures { OnOk result (out.new.items ≡ out.old.items ++ idle_text cycles) }
{
    push_named_number(out, b"xnop ", cycles)
}

fn push_word(out: &mut Vec<u8>, word: &Word) -> Result<(), NoMemory>
    ensures { OnOk result (out.new.items ≡ out.old.items ++ word_lines word.now) }
{
    if word.idle == 0 {
        push_operation_lines(out, word.ops.as_slice())?;
    } else {
        push_idle(out, word.idle)?;
        push_bytes(out, b"\n")?;
    }
    push_bytes(out, b";;\n")
}

/// Puts a label, `Lp:`, at the end.
pub fn push_place(out: &mut Vec<u8>, place: usize) -> Result<(), NoMemory>
    ensures { OnOk result (out.new.items ≡ out.old.items ++ place_text place) }
{
    push_label(out, place)?;
    push_bytes(out, b":")
}

fn push_words(alloc: Global, out: &mut Vec<u8>, words: &[Word]) -> Result<(), NoMemory>
    ensures { OnOk result (out.new.items ≡ out.old.items ++ words_from words.now 0 words.now) }
{
    let named = named_places(alloc, words)?;
    for (place, word) in words.iter().enumerate() {
        if named[place] {
            push_place(out, place)?;
            push_bytes(out, b"\n")?;
        }
        push_word(out, word)?;
    }
    Ok(())
}

/// Puts the first line, which says the version of the text, and the line with the bytes of the memory at the end.
fn push_header(out: &mut Vec<u8>, version: u32, memory: u32) -> Result<(), NoMemory>
    ensures { OnOk result (out.new.items ≡ out.old.items ++ header version memory) }
{
    push_named_number(out, b".vexwords ", version)?;
    push_named_number(out, b"\n.memory ", memory)?;
    push_bytes(out, b"\n")
}

/// The text of the program, which must be sound. `Err` comes only where memory runs out.
pub fn write(alloc: Global, program: &WordProgram) -> Result<Vec<u8>, NoMemory>
    requires { is_sound program.now ≡ true }
    ensures { IfOk result (λ text. Spells text.items program.now) }
{
    let mut out = Vec::new(alloc);
    push_header(&mut out, program.version, program.memory)?;
    push_start_lines(&mut out, program.start.as_slice())?;
    push_text_lines(&mut out, program.texts.as_slice())?;
    push_words(alloc, &mut out, program.words.as_slice())?;
    push_bytes(&mut out, b".end\n")?;
    Ok(out)
}
