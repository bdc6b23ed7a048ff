// Strings.

ghost use Rattle.std.specs.Prelude.{◌≡◌, ◌≤◌, ◌<◌, ◌&&◌, false, if◌then◌else◌, is_none, length, unwrap_or, IfOk, IfSome};
ghost use Rattle.vx_ast.specs.Tokens.{before_bad_escape, before_quote, escape_of, escapes_read, is_free, quoted_piece, string_piece};

use std::alloc::Global;
use vx_ast::token::{Piece, TokenKind};
use vx_base::listed::{Bytes, Listed};
use vx_base::outcome::NoMemory;

// Whether a byte is this one and unescaped.
fn is_free(wanted: u8, escaped: bool, byte: u8) -> bool
    ensures { result ≡ is_free wanted escaped byte }
{
    !escaped && byte == wanted
}

// How many bytes stand before the closing quote on this line.
#[tactic(auto, using(crate::proofs::Steps::quote_step, crate::proofs::Steps::quote_end, crate::proofs::Counted::behind_none))]
fn before_quote(text: &[u8]) -> Option<usize>
    ensures count { result ≡ before_quote false text.now }
    ensures within { IfSome result (λ n. n < length text.now) }
{
    let mut escaped = false;
    for (place, byte) in text.iter().enumerate() {
        if *byte == b'\n' {
            return None;
        }
        if is_free(b'"', escaped, *byte) {
            return Some(place);
        }
        escaped = is_free(b'\\', escaped, *byte);
    }
    None
}

// What `\` and this byte stand for.
fn escape_of(byte: u8) -> Option<u8>
    ensures { result ≡ escape_of byte }
{
    match byte {
        b'n' => Some(b'\n'),
        b't' => Some(b'\t'),
        b'\\' => Some(b'\\'),
        b'"' => Some(b'"'),
        _ => None,
    }
}

fn is_bad_escape(escaped: bool, byte: u8) -> bool
    ensures { result ≡ (escaped && is_none (escape_of byte)) }
{
    escaped && escape_of(byte).is_none()
}

// How many bytes stand before the first one that makes no escape with the `\` before it.
#[tactic(auto, using(crate::proofs::Steps::escape_step, crate::proofs::Steps::escape_end, crate::proofs::Counted::behind_none))]
fn before_bad_escape(inner: &[u8]) -> Option<usize>
    ensures count { result ≡ before_bad_escape false inner.now }
    ensures within { IfSome result (λ n. n < length inner.now) }
{
    let mut escaped = false;
    for (place, byte) in inner.iter().enumerate() {
        if is_bad_escape(escaped, *byte) {
            return Some(place);
        }
        escaped = is_free(b'\\', escaped, *byte);
    }
    None
}

// The byte itself, or what it stands for behind `\`.
fn byte_read(escaped: bool, byte: u8) -> u8
    ensures { result ≡ (if escaped then unwrap_or (escape_of byte) byte else byte) }
{
    if escaped {
        escape_of(byte).unwrap_or(byte)
    } else {
        byte
    }
}

// The bytes, their escapes read.
#[tactic(auto, using(crate::proofs::Steps::read_step, crate::proofs::Steps::read_end, crate::proofs::Counted::behind_none))]
fn escapes_read(alloc: Global, inner: &[u8]) -> Result<Bytes, NoMemory>
    ensures { IfOk result (λ bytes. bytes ≡ escapes_read false inner.now) }
{
    let mut bytes = Listed::new(alloc);
    let mut escaped = false;
    for byte in inner {
        if is_free(b'\\', escaped, *byte) {
            escaped = true;
        } else {
            bytes.push(byte_read(escaped, *byte))?;
            escaped = false;
        }
    }
    Ok(bytes)
}

// What stands between the quotes.
#[tactic(auto, unfolding(vx_ast::specs::Tokens::quoted_piece))]
fn quoted_piece(alloc: Global, inner: &[u8]) -> Result<Piece, NoMemory>
    requires { length inner.now ≤ 1048576 }
    ensures { IfOk result (λ piece. piece ≡ quoted_piece inner.now) }
{
    match before_bad_escape(inner) {
        Some(count) => Ok(Piece::Faulty(1, 1 + count)),
        None => {
            let bytes = escapes_read(alloc, inner)?;
            Ok(Piece::Spelled(TokenKind::Text(bytes), 2 + inner.len()))
        }
    }
}

/// The string that a text begins with, which begins with `"`.
#[tactic(auto, unfolding(vx_ast::specs::Tokens::string_piece))]
pub fn string_piece(alloc: Global, text: &[u8]) -> Result<Piece, NoMemory>
    requires some { 0 < length text.now }
    requires few { length text.now ≤ 1048576 }
    ensures { IfOk result (λ piece. piece ≡ string_piece text.now) }
{
    let behind = &text[1..];
    match before_quote(behind) {
        Some(count) => quoted_piece(alloc, &behind[..count]),
        None => Ok(Piece::Faulty(2, 0)),
    }
}
