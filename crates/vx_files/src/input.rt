// Reads the text of an input: decimal words apart by blanks. The clause is `input_reading` of specs/InputText.antt.

ghost use Rattle.std.specs.Prelude.{◌≡◌, ◌<◌, ◌≤◌, ◌+◌, ◌++◌, [], ◌∷◌, pos, min, length, drop, Err, OnOk, OnErr};
ghost use Rattle.std.specs.List.{list_all, prefix_len};
ghost use Rattle.vx_files.specs.InputText.{is_blank, is_no_blank, is_digit, value_of, is_decimal, negative, number_within, number_of, pieces, input_reading, Answers};
ghost use Rattle.vx_files.specs.declared.input.InputFault.TheVariants.{NoMemory as OutOfMemory};

use std::alloc::{AllocError, AllocFailed, Global};

/// Why an input's text gives no numbers.
#[derive(Clone, Copy)]
pub(crate) enum InputFault {
    /// The word that begins at this byte, from 0, is no decimal number of 32 bits.
    Bad(u32),
    /// Memory is wanted and not there.
    NoMemory,
}

impl From<AllocError> for InputFault {
    ghost from_gives = { λ _ e. e ≡ OutOfMemory };

    fn from(_: AllocError) -> InputFault {
        InputFault::NoMemory
    }
}

impl<T: Drop> From<AllocFailed<T>> for InputFault {
    ghost from_gives = { λ _ e. e ≡ OutOfMemory };

    fn from(_: AllocFailed<T>) -> InputFault {
        InputFault::NoMemory
    }
}

/// Space, tab, line feed, carriage return.
fn blank(byte: u8) -> bool
    ensures { result ≡ is_blank byte }
{
    byte == 32 || byte == 9 || byte == 10 || byte == 13
}

fn digit(byte: u8) -> bool
    ensures { result ≡ is_digit byte }
{
    48 <= byte && byte <= 57
}

fn all_digits(text: &[u8]) -> bool
    ensures { result ≡ list_all is_digit text.now }
{
    for byte in text {
        if !digit(*byte) {
            return false;
        }
    }
    true
}

/// At least one digit, and nothing else.
fn decimal(text: &[u8]) -> bool
    ensures { result ≡ is_decimal text.now }
{
    !text.is_empty() && all_digits(text)
}

/// The number of digits, or the least that is too large.
fn capped_value(digits: &[u8]) -> u64
    ensures { result ≡ min 2147483649 (value_of digits.now) }
{
    let mut value: u64 = 0;
    for digit in digits {
        value = (10 * value + u64::from(digit.saturating_sub(48))).min(2147483649);
    }
    value
}

fn negated(number: u64) -> i32
    requires { number ≤ 2147483648 }
    ensures { result ≡ negative number }
{
    if number == 0 {
        0
    } else {
        -1 - (number - 1) as i32
    }
}

/// The number of digits behind a `-`.
fn below_zero(digits: &[u8]) -> Option<i32>
    ensures { result ≡ number_within 2147483648 negative digits.now }
{
    let value = capped_value(digits);
    if decimal(digits) && value <= 2147483648 {
        Some(negated(value))
    } else {
        None
    }
}

/// The number of digits without a sign.
fn from_zero(digits: &[u8]) -> Option<i32>
    ensures { result ≡ number_within 2147483647 (λ n. pos n) digits.now }
{
    let value = capped_value(digits);
    if decimal(digits) && value <= 2147483647 {
        Some(value as i32)
    } else {
        None
    }
}

/// The number of a word, if it has one.
#[tactic(auto, unfolding(crate::specs::InputText::number_of))]
fn number(word: &[u8]) -> Option<i32>
    requires { 0 < length word.now }
    ensures { result ≡ number_of word.now }
{
    if word[0] == b'-' {
        below_zero(&word[1..])
    } else {
        from_zero(word)
    }
}

/// How many bytes stand before the first blank.
fn piece_end(text: &[u8]) -> usize
    ensures within { result ≤ length text.now }
    ensures end { result ≡ prefix_len is_no_blank text.now }
{
    for (place, byte) in text.iter().enumerate() {
        if blank(*byte) {
            return place;
        }
    }
    text.len()
}

/// The text behind its first bytes; nothing where it has no more.
fn behind(text: &[u8], count: usize) -> &[u8]
    ensures { result.now ≡ drop count text.now }
{
    if count <= text.len() {
        &text[count..]
    } else {
        &[]
    }
}

/// The first piece, and what stands behind its blank.
fn next_piece(text: &[u8]) -> (&[u8], &[u8])
    requires { 0 < length text.now }
    ensures pieces { pieces text.now ≡ result.0.now ∷ pieces result.1.now }
    ensures shorter { length result.1.now < length text.now }
    ensures blank { 0 < length result.1.now → length result.0.now + 1 + length result.1.now ≤ length text.now }
    ensures within { length result.0.now ≤ length text.now }
{
    let end = piece_end(text);
    (&text[..end], behind(text, end + 1))
}

/// Adds a number behind the others.
fn add(numbers: &mut Vec<i32>, number: i32) -> Result<(), InputFault>
    ensures added { OnOk result (numbers.new.items ≡ numbers.old.items ++ number ∷ []) }
    ensures memory { OnErr result (result ≡ Err OutOfMemory) }
{
    numbers.push(number)?;
    Ok(())
}

/// The numbers of a text of at most 16,777,216 bytes, or the place of the first word that is none. It takes time
/// proportional to the text.
pub(crate) fn read_input(alloc: Global, bytes: &[u8]) -> Result<Vec<i32>, InputFault>
    requires { length bytes.now ≤ 16777216 }
    ensures { Answers result (input_reading bytes.now) }
{
    let mut numbers = Vec::new(alloc);
    let mut place: u32 = 0;
    let mut rest = bytes;
    'pieces: while !rest.is_empty() {
        let (piece, after) = next_piece(rest);
        let here = place;
        place += piece.len() as u32 + 1;
        rest = after;
        if !piece.is_empty() {
            match number(piece) {
                Some(number) => add(&mut numbers, number)?,
                None => return Err(InputFault::Bad(here)),
            }
        }
    }
    Ok(numbers)
}
