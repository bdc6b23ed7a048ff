// Reads the fields of a line from the left, as specs/Fields.antt says. What is read is only what the field can be:
// whether it is spelled so is asked afterwards.

ghost use Rattle.std.specs.Prelude.{◌≡◌, ◌≤◌, pos, drop, slice_index};
ghost use Rattle.vx_reader.specs.Fields.{is_digit, number_from, negative, number_at, signed_at, numbers_at, general_at, branch_at, register_at, source_at};

use vx_isa::operation::{BranchRegister, GeneralRegister, Register, Source};

/// The text behind its first bytes; nothing where it has no more.
pub fn skip(text: &[u8], count: usize) -> &[u8]
    ensures { result.now ≡ drop count text.now }
{
    if count <= text.len() {
        &text[count..]
    } else {
        &[]
    }
}

/// The byte at a place, 0 behind the end.
pub fn byte_at(text: &[u8], place: usize) -> u8
    ensures { result ≡ slice_index text.now place }
{
    if place < text.len() { text[place] } else { 0 }
}

/// A decimal digit.
pub fn is_digit(byte: u8) -> bool
    ensures { result ≡ is_digit byte }
{
    byte >= 48 && byte <= 57
}

fn capped_at(text: &[u8], most: u32) -> (u32, &[u8])
    ensures value { result.0 ≡ (number_from most 0 text.now).0 }
    ensures rest { result.1.now ≡ (number_from most 0 text.now).1 }
    ensures bound { result.0 ≤ most }
{
    let mut value: u32 = 0;
    for (place, byte) in text.iter().enumerate() {
        if !is_digit(*byte) {
            return (value, &text[place..]);
        }
        let longer = 10 * u64::from(value) + u64::from(*byte - 48);
        value = longer.min(u64::from(most)) as u32;
    }
    (value, &[])
}

/// The number that begins a text, and what stands behind it. What is over 4294967295 counts as that.
#[tactic(auto, unfolding(crate::specs::Fields::number_at))]
pub fn number(text: &[u8]) -> (u32, &[u8])
    ensures value { result.0 ≡ (number_at text.now).0 }
    ensures rest { result.1.now ≡ (number_at text.now).1 }
{
    capped_at(text, 4294967295)
}

fn negated(number: u32) -> i32
    requires { number ≤ 2147483648 }
    ensures { result ≡ negative number }
{
    if number == 0 {
        0
    } else {
        -1 - (number - 1) as i32
    }
}

/// The signed number that begins a text, and what stands behind it.
#[tactic(auto, unfolding(crate::specs::Fields::signed_at))]
pub fn signed(text: &[u8]) -> (i32, &[u8])
    ensures value { result.0 ≡ (signed_at text.now).0 }
    ensures rest { result.1.now ≡ (signed_at text.now).1 }
{
    if byte_at(text, 0) == b'-' {
        let (number, rest) = capped_at(skip(text, 1), 2147483648);
        (negated(number), rest)
    } else {
        let (number, rest) = capped_at(text, 2147483647);
        (number as i32, rest)
    }
}

#[tactic(auto, unfolding(crate::specs::Fields::numbers_at))]
fn numbers(text: &[u8]) -> (u32, u32, &[u8])
    ensures cluster { result.0 ≡ (numbers_at text.now).0 }
    ensures number { result.1 ≡ (numbers_at text.now).1 }
    ensures rest { result.2.now ≡ (numbers_at text.now).2 }
{
    let (cluster, behind) = number(skip(text, 2));
    let (number, rest) = number(skip(behind, 1));
    (cluster, number, rest)
}

/// The general register that begins a text, and what stands behind it.
#[tactic(auto, unfolding(crate::specs::Fields::general_at))]
pub fn general(text: &[u8]) -> (GeneralRegister, &[u8])
    ensures register { result.0 ≡ (general_at text.now).0 }
    ensures rest { result.1.now ≡ (general_at text.now).1 }
{
    let (cluster, number, rest) = numbers(text);
    (GeneralRegister { cluster, number }, rest)
}

/// The branch register that begins a text, and what stands behind it.
#[tactic(auto, unfolding(crate::specs::Fields::branch_at))]
pub fn branch(text: &[u8]) -> (BranchRegister, &[u8])
    ensures register { result.0 ≡ (branch_at text.now).0 }
    ensures rest { result.1.now ≡ (branch_at text.now).1 }
{
    let (cluster, number, rest) = numbers(text);
    (BranchRegister { cluster, number }, rest)
}

/// The destination that begins a text, and what stands behind it.
#[tactic(auto, unfolding(crate::specs::Fields::register_at))]
pub fn register(text: &[u8]) -> (Register, &[u8])
    ensures register { result.0 ≡ (register_at text.now).0 }
    ensures rest { result.1.now ≡ (register_at text.now).1 }
{
    if byte_at(text, 1) == b'b' {
        let (register, rest) = branch(text);
        (Register::Branch(register), rest)
    } else {
        let (register, rest) = general(text);
        (Register::General(register), rest)
    }
}

/// The source that begins a text, and what stands behind it.
#[tactic(auto, unfolding(crate::specs::Fields::source_at))]
pub fn source(text: &[u8]) -> (Source, &[u8])
    ensures source { result.0 ≡ (source_at text.now).0 }
    ensures rest { result.1.now ≡ (source_at text.now).1 }
{
    if byte_at(text, 0) == b'$' {
        let (register, rest) = general(text);
        (Source::Held(register), rest)
    } else {
        let (number, rest) = signed(text);
        (Source::Number(number), rest)
    }
}
