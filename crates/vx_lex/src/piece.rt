// What stands first in a text, whatever its kind.

ghost use Rattle.std.specs.Prelude.{◌≡◌, ◌≤◌, ◌<◌, ◌==◌, length, IfOk};
ghost use Rattle.vx_ast.specs.Tokens.{column_at, first_piece, piece_at};

use crate::byte::{byte_at, is_blank, is_digit, is_letter, line_length};
use crate::comment::{comment_piece, is_include_line};
use crate::mark::mark_piece;
use crate::number::{begins_hex, decimal_piece, hex_piece};
use crate::quoted::string_piece;
use crate::word::word_piece;
use std::alloc::Global;
use vx_ast::token::Piece;
use vx_base::outcome::NoMemory;

#[tactic(auto, unfolding(vx_ast::specs::Tokens::first_piece))]
fn first_piece(alloc: Global, text: &[u8]) -> Result<Piece, NoMemory>
    requires some { 0 < length text.now }
    requires few { length text.now ≤ 1048576 }
    ensures { IfOk result (λ piece. piece ≡ first_piece text.now) }
{
    let first = byte_at(text, 0);
    if is_blank(first) {
        Ok(Piece::Skipped(1))
    } else if text.starts_with(b"/*") {
        Ok(comment_piece(text))
    } else if text.starts_with(b"//") {
        Ok(Piece::Skipped(line_length(text)))
    } else if is_letter(first) {
        word_piece(alloc, text)
    } else if begins_hex(text) {
        Ok(hex_piece(text))
    } else if is_digit(first) {
        Ok(decimal_piece(text))
    } else if first == b'"' {
        string_piece(alloc, text)
    } else {
        Ok(mark_piece(text))
    }
}

/// What stands first from a place of a source on. Where a line begins it may be an include line.
#[tactic(auto, unfolding(vx_ast::specs::Tokens::piece_at))]
pub fn piece_at(
    alloc: Global,
    bytes: &[u8],
    place: usize,
    begins_line: bool,
) -> Result<Piece, NoMemory>
    requires some { place < length bytes.now }
    requires few { length bytes.now ≤ 1048576 }
    requires line { begins_line ≡ (column_at bytes.now place == 1) }
    ensures { IfOk result (λ piece. piece ≡ piece_at bytes.now place) }
{
    let text = &bytes[place..];
    if begins_line {
        let count = line_length(text);
        if is_include_line(&text[..count]) {
            return Ok(Piece::Skipped(count));
        }
    }
    first_piece(alloc, text)
}
