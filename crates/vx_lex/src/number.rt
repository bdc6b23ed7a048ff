// Numbers.

ghost use Rattle.std.specs.Prelude.{◌≡◌, ◌≤◌, ◌<◌, length, min, true};
ghost use Rattle.std.specs.List.{prefix_len};
ghost use Rattle.vx_ast.specs.Tokens.{begins_hex, decimal_piece, digit_value, hex_piece, is_digit, is_hex_digit, number_of, value_of_digits};

use crate::byte::{byte_at, digits_length, hex_digits_length, is_digit, is_name_byte, skip};
use vx_ast::token::{Piece, TokenKind};

/// The least number that is too large.
pub const TOO_LARGE: u64 = 2147483648;

fn digit_value(byte: u8) -> u8
    ensures { result ≡ digit_value byte }
{
    if is_digit(byte) {
        byte - b'0'
    } else if byte >= b'a' {
        byte - 87
    } else {
        byte.saturating_sub(55)
    }
}

// The number of these digits, or the least that is too large where it is too large.
fn capped_value(base: u64, digits: &[u8]) -> u64
    requires low { 1 ≤ base }
    requires high { base ≤ 16 }
    ensures { result ≡ min 2147483648 (value_of_digits base digits.now) }
{
    let mut value: u64 = 0;
    for digit in digits {
        value = (base * value + u64::from(digit_value(*digit))).min(TOO_LARGE);
    }
    value
}

// A number of so many bytes, by what stands behind it and by its value, capped.
fn number_of(text: &[u8], count: usize, value: u64) -> Piece
    requires { value ≤ 2147483648 }
    ensures { result ≡ number_of text.now count value }
{
    if is_name_byte(byte_at(text, count)) {
        Piece::Faulty(1, count)
    } else if value >= TOO_LARGE {
        Piece::Faulty(3, 0)
    } else {
        Piece::Spelled(TokenKind::Number(value as i32), count)
    }
}

/// Whether a text begins with `0x` or `0X`.
pub fn begins_hex(text: &[u8]) -> bool
    ensures { result ≡ begins_hex text.now }
{
    text.starts_with(b"0x") || text.starts_with(b"0X")
}

/// The number that a text begins with, which begins with `0x` or `0X`.
#[tactic(auto, unfolding(vx_ast::specs::Tokens::hex_piece))]
pub fn hex_piece(text: &[u8]) -> Piece
    requires { begins_hex text.now ≡ true }
    ensures { result ≡ hex_piece text.now }
{
    let behind = skip(text, 2);
    let count = hex_digits_length(behind);
    if count == 0 {
        return Piece::Faulty(1, if text.len() > 2 { 2 } else { 1 });
    }
    number_of(text, 2 + count, capped_value(16, &behind[..count]))
}

/// The decimal number that a text begins with, which begins with a digit.
#[tactic(auto, unfolding(vx_ast::specs::Tokens::decimal_piece))]
pub fn decimal_piece(text: &[u8]) -> Piece
    ensures { result ≡ decimal_piece text.now }
{
    if byte_at(text, 0) == b'0' {
        return number_of(text, 1, 0);
    }
    let count = digits_length(text);
    number_of(text, count, capped_value(10, &text[..count]))
}
