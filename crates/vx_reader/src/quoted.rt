// Reads the bytes that a quoted text stands for, as specs/Steps.antt says.

ghost use Rattle.std.specs.Prelude.{◌≡◌, ◌<◌, ◌++◌, OnOk, IfOk};
ghost use Rattle.vx_reader.specs.Steps.{hexadecimal_value, next_escape, complete_byte, unquoted_from, unquoted, IsDigitValue};

use crate::fields::skip;
use std::alloc::Global;
use vx_base::listed::{Bytes, Listed};
use vx_base::outcome::NoMemory;

/// What stood last in a quoted text.
#[derive(Clone, Copy)]
pub enum Escape {
    /// A whole byte.
    Plain,
    /// A backslash.
    Backslash,
    /// A backslash and its `x`: the first digit comes.
    FirstDigit,
    /// The first digit, with its value.
    LastDigit(u8),
}

fn value_of_digit(digit: u8) -> u8
    ensures { result ≡ hexadecimal_value digit }
{
    (if digit < 58 {
        digit.saturating_sub(48)
    } else {
        digit.saturating_sub(87)
    }) % 16
}

fn next(escape: Escape, byte: u8) -> Escape
    ensures { result ≡ next_escape escape byte }
{
    match escape {
        Escape::Plain => if byte == b'\\' {
            Escape::Backslash
        } else {
            Escape::Plain
        },
        Escape::Backslash => Escape::FirstDigit,
        Escape::FirstDigit => Escape::LastDigit(value_of_digit(byte)),
        Escape::LastDigit(_) => Escape::Plain,
    }
}

// Puts the byte that is complete with this one at the end, if one is. The first digit's value is below 16.
fn push_complete(out: &mut Vec<u8>, escape: Escape, byte: u8) -> Result<(), NoMemory>
    requires { IsDigitValue escape }
    ensures { OnOk result (out.new.items ≡ out.old.items ++ complete_byte escape byte) }
{
    match escape {
        Escape::Plain => {
            if byte != b'\\' {
                out.push(byte)?;
            }
        },
        Escape::LastDigit(high) => out.push(16 * high + value_of_digit(byte))?,
        _ => {},
    }
    Ok(())
}

fn unquoted_bytes(alloc: Global, text: &[u8]) -> Result<Vec<u8>, NoMemory>
    ensures { IfOk result (λ bytes. bytes.items ≡ unquoted_from Escape.Plain text.now) }
{
    let mut out = Vec::new(alloc);
    let mut escape = Escape::Plain;
    for byte in text {
        push_complete(&mut out, escape, *byte)?;
        escape = next(escape, *byte);
    }
    Ok(out)
}

/// The bytes that a line with a text can only stand for.
#[tactic(auto, unfolding(crate::specs::Steps::unquoted))]
pub fn text_of_line(alloc: Global, line: &[u8]) -> Result<Bytes, NoMemory>
    ensures { IfOk result (λ bytes. bytes ≡ unquoted line.now) }
{
    let rest = skip(line, 7);
    let inner = if rest.is_empty() {
        rest
    } else {
        &rest[..rest.len() - 1]
    };
    Ok(Listed::from_vec(unquoted_bytes(alloc, inner)?)?)
}
