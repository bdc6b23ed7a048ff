// The lines of content: a mark, and the bytes that it gives.

use crate::sheet::{Behind, Piece};
use crate::why::Why;
use std::alloc::Global;

/// How far an escape has come.
#[derive(Clone, Copy)]
enum Escape {
    /// There is none.
    Outside,
    /// Its backslash was read.
    Begun,
    /// Its `x` was read.
    Number,
    /// The first of two digits was read.
    Digit(u8),
}

/// A digit of sixteen.
fn digit_of(byte: u8) -> Result<u8, Why> {
    match byte {
        b'0'..=b'9' => Ok(byte - b'0'),
        b'a'..=b'f' => Ok(byte - b'a' + 10),
        b'A'..=b'F' => Ok(byte - b'A' + 10),
        _ => Err(Why::BadContent),
    }
}

/// The byte that an escape of one letter gives.
fn letter_of(byte: u8) -> Result<u8, Why> {
    match byte {
        b'n' => Ok(b'\n'),
        b't' => Ok(b'\t'),
        b'r' => Ok(b'\r'),
        b'\\' => Ok(b'\\'),
        _ => Err(Why::BadContent),
    }
}

/// Reads a byte behind a backslash.
fn begun(bytes: &mut Vec<u8>, byte: u8) -> Result<Escape, Why> {
    if byte == b'x' {
        return Ok(Escape::Number);
    }
    bytes.push(letter_of(byte)?)?;
    Ok(Escape::Outside)
}

/// Reads a byte outside escapes.
fn outside(bytes: &mut Vec<u8>, byte: u8) -> Result<Escape, Why> {
    if byte == b'\\' {
        return Ok(Escape::Begun);
    }
    bytes.push(byte)?;
    Ok(Escape::Outside)
}

/// Reads the second digit of an escape.
fn ended(bytes: &mut Vec<u8>, high: u8, byte: u8) -> Result<Escape, Why> {
    let low = digit_of(byte)?;
    bytes.push((high << 4) | low)?;
    Ok(Escape::Outside)
}

/// Reads a byte.
fn take_byte(bytes: &mut Vec<u8>, escape: Escape, byte: u8) -> Result<Escape, Why> {
    match escape {
        Escape::Outside => outside(bytes, byte),
        Escape::Begun => begun(bytes, byte),
        Escape::Number => Ok(Escape::Digit(digit_of(byte)?)),
        Escape::Digit(high) => ended(bytes, high, byte),
    }
}

/// The bytes of a text with its escapes read.
fn without_escapes(alloc: Global, text: &[u8]) -> Result<Vec<u8>, Why> {
    let mut bytes = Vec::new(alloc);
    let mut escape = Escape::Outside;
    for byte in text {
        escape = take_byte(&mut bytes, escape, *byte)?;
    }
    match escape {
        Escape::Outside => Ok(bytes),
        _ => Err(Why::BadContent),
    }
}

/// Bytes and a line feed.
fn with_line_feed(alloc: Global, text: &[u8]) -> Result<Vec<u8>, Why> {
    let mut bytes = Vec::from_slice(alloc, text)?;
    bytes.push(b'\n')?;
    Ok(bytes)
}

/// A number in decimal.
pub(crate) fn number_of(digits: &[u8]) -> Result<u32, Why> {
    match str::from_utf8(digits) {
        Ok(digits) => digits.parse::<u32>().map_err(|_| Why::BadContent),
        Err(_) => Err(Why::BadContent),
    }
}

/// Bytes so many times over.
fn times(alloc: Global, count: u32, once: &[u8]) -> Result<Vec<u8>, Why> {
    let mut bytes = Vec::new(alloc);
    for _ in 0..count {
        bytes.extend_from_slice(once)?;
    }
    Ok(bytes)
}

/// A number, and the text behind the blank that follows it.
fn counted(text: &[u8]) -> Result<(u32, &[u8]), Why> {
    match text.iter().position(|byte| *byte == b' ') {
        Some(at) => {
            let count = number_of(&text[..at])?;
            Ok((count, &text[at + 1..]))
        }
        None => Err(Why::BadContent),
    }
}

/// A number, and behind a blank the text that is to be there so many times.
fn repeated(alloc: Global, text: &[u8]) -> Result<Vec<u8>, Why> {
    let (count, text) = counted(text)?;
    let once = without_escapes(alloc, text)?;
    times(alloc, count, once.as_slice())
}

/// The bytes of a line of content.
fn bytes_of(alloc: Global, line: &[u8]) -> Result<Vec<u8>, Why> {
    match line {
        [b'|', text @ ..] => with_line_feed(alloc, text),
        [b':', text @ ..] | [b'?', text @ ..] => Ok(Vec::from_slice(alloc, text)?),
        [b'=', text @ ..] => without_escapes(alloc, text),
        [b'*', text @ ..] => repeated(alloc, text),
        [b'+', text @ ..] => Ok(Vec::from_slice(alloc, counted(text)?.1)?),
        [b'.', b'.', b'.'] => Ok(Vec::new(alloc)),
        _ => Err(Why::BadContent),
    }
}

/// Whether a line begins with a mark of content. The line that begins a row does not, though it begins with `=`.
pub(crate) fn is_content(line: &[u8]) -> bool {
    match line {
        [b'=', b'=', b' ', ..] => false,
        [b'.', b'.', b'.'] => true,
        [mark, ..] => matches!(*mark, b'|' | b':' | b'=' | b'*' | b'?' | b'+'),
        [] => false,
    }
}

/// What may stand behind the bytes of a line of content.
fn behind_of(line: &[u8]) -> Result<Behind, Why> {
    match line {
        [b'.', b'.', b'.'] => Ok(Behind::Lines),
        [b'?', ..] => Ok(Behind::Line),
        [b'+', text @ ..] => Ok(Behind::Number(counted(text)?.0)),
        _ => Ok(Behind::Nothing),
    }
}

/// The content that a line gives.
pub(crate) fn piece_of(alloc: Global, line: &[u8]) -> Result<Piece, Why> {
    let bytes = bytes_of(alloc, line)?;
    let behind = behind_of(line)?;
    Ok(Piece { bytes, behind })
}
