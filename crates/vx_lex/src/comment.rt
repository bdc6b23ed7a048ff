// Comments and the include line.

ghost use Rattle.std.specs.Prelude.{◌≡◌, ◌≤◌, ◌<◌, false, codes, drop, length, nat_eq, IfSome};
ghost use Rattle.std.specs.List.{list_all, starts_with};
ghost use Rattle.std.specs.Option.{option_copied, option_map_or};
ghost use Rattle.vx_ast.specs.Tokens.{before_close, behind_word, comment_piece, is_blank, is_include_line};

use crate::byte::{blanks_length, is_blank};
use vx_ast::token::Piece;

fn closes_at(text: &[u8], place: usize) -> bool
    requires { place ≤ length text.now }
    ensures { result ≡ starts_with nat_eq (drop place text.now) (codes "*/") }
{
    text[place..].starts_with(b"*/")
}

// How many bytes stand before the first `*/`.
#[tactic(auto, using(crate::proofs::Steps::close_step, crate::proofs::Steps::close_end, crate::proofs::Counted::behind_none))]
fn before_close(text: &[u8]) -> Option<usize>
    ensures count { result ≡ before_close text.now }
    ensures within { IfSome result (λ n. n < length text.now) }
{
    for place in 0..text.len() {
        if closes_at(text, place) {
            return Some(place);
        }
    }
    None
}

/// The comment that a text begins with, which begins with `/*`.
#[tactic(auto, unfolding(vx_ast::specs::Tokens::comment_piece))]
pub fn comment_piece(text: &[u8]) -> Piece
    requires some { 2 ≤ length text.now }
    ensures { result ≡ comment_piece text.now }
{
    match before_close(&text[2..]) {
        Some(count) => Piece::Skipped(4 + count),
        None => Piece::Faulty(2, 0),
    }
}

// What stands behind blanks and then this word, where they stand there.
#[tactic(auto, unfolding(vx_ast::specs::Tokens::behind_word))]
fn behind_word<'a>(text: &'a [u8], word: &[u8]) -> Option<&'a [u8]>
    ensures { option_copied result ≡ behind_word word.now text.now }
{
    let text = &text[blanks_length(text)..];
    if text.starts_with(word) {
        Some(&text[word.len()..])
    } else {
        None
    }
}

// What stands behind the three words.
#[tactic(auto, unfolding(vx_ast::specs::Tokens::is_include_line))]
fn behind_include(line: &[u8]) -> Option<&[u8]>
    ensures { option_map_or (list_all is_blank) (option_copied result) false ≡ is_include_line line.now }
{
    let line = behind_word(line, b"#")?;
    let line = behind_word(line, b"include")?;
    behind_word(line, b"<stdio.h>")
}

fn are_blanks(text: &[u8]) -> bool
    ensures { result ≡ list_all is_blank text.now }
{
    for byte in text {
        if !is_blank(*byte) {
            return false;
        }
    }
    true
}

/// Whether a line holds, besides blanks, only `#`, `include` and `<stdio.h>`, in this order.
pub fn is_include_line(line: &[u8]) -> bool
    ensures { result ≡ is_include_line line.now }
{
    match behind_include(line) {
        Some(rest) => are_blanks(rest),
        None => false,
    }
}
