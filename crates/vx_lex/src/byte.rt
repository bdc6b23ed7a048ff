// Kinds of bytes.

ghost use Rattle.std.specs.Prelude.{◌≡◌, ◌≤◌, drop, length, slice_index};
ghost use Rattle.std.specs.List.{prefix_len};
ghost use Rattle.vx_ast.specs.Tokens.{is_blank, is_digit, is_hex_digit, is_in_line, is_letter, is_name_byte};

/// Space, tab, line feed, vertical tab, form feed and carriage return.
pub fn is_blank(byte: u8) -> bool
    ensures { result ≡ is_blank byte }
{
    byte == b' ' || (byte >= 9 && byte <= 13)
}

/// A decimal digit.
pub fn is_digit(byte: u8) -> bool
    ensures { result ≡ is_digit byte }
{
    byte >= b'0' && byte <= b'9'
}

/// A hexadecimal digit.
pub fn is_hex_digit(byte: u8) -> bool
    ensures { result ≡ is_hex_digit byte }
{
    is_digit(byte) || (byte >= b'A' && byte <= b'F') || (byte >= b'a' && byte <= b'f')
}

/// A letter or `_`.
pub fn is_letter(byte: u8) -> bool
    ensures { result ≡ is_letter byte }
{
    (byte >= b'A' && byte <= b'Z') || (byte >= b'a' && byte <= b'z') || byte == b'_'
}

/// A letter, `_` or a digit.
pub fn is_name_byte(byte: u8) -> bool
    ensures { result ≡ is_name_byte byte }
{
    is_letter(byte) || is_digit(byte)
}

/// The byte at a place, 0 behind the end.
pub fn byte_at(text: &[u8], place: usize) -> u8
    ensures { result ≡ slice_index text.now place }
{
    if place < text.len() { text[place] } else { 0 }
}

/// The text behind its first bytes.
pub fn skip(text: &[u8], count: usize) -> &[u8]
    requires { count ≤ length text.now }
    ensures { result.now ≡ drop count text.now }
{
    &text[count..]
}

/// How many bytes stand before the end of the line.
pub fn line_length(text: &[u8]) -> usize
    ensures count { result ≡ prefix_len is_in_line text.now }
    ensures within { result ≤ length text.now }
{
    for (place, byte) in text.iter().enumerate() {
        if *byte == b'\n' {
            return place;
        }
    }
    text.len()
}

/// How many bytes at the front are blanks.
pub fn blanks_length(text: &[u8]) -> usize
    ensures count { result ≡ prefix_len is_blank text.now }
    ensures within { result ≤ length text.now }
{
    for (place, byte) in text.iter().enumerate() {
        if !is_blank(*byte) {
            return place;
        }
    }
    text.len()
}

/// How many bytes at the front are letters, `_` and digits.
pub fn name_length(text: &[u8]) -> usize
    ensures count { result ≡ prefix_len is_name_byte text.now }
    ensures within { result ≤ length text.now }
{
    for (place, byte) in text.iter().enumerate() {
        if !is_name_byte(*byte) {
            return place;
        }
    }
    text.len()
}

/// How many bytes at the front are decimal digits.
pub fn digits_length(text: &[u8]) -> usize
    ensures count { result ≡ prefix_len is_digit text.now }
    ensures within { result ≤ length text.now }
{
    for (place, byte) in text.iter().enumerate() {
        if !is_digit(*byte) {
            return place;
        }
    }
    text.len()
}

/// How many bytes at the front are hexadecimal digits.
pub fn hex_digits_length(text: &[u8]) -> usize
    ensures count { result ≡ prefix_len is_hex_digit text.now }
    ensures within { result ≤ length text.now }
{
    for (place, byte) in text.iter().enumerate() {
        if !is_hex_digit(*byte) {
            return place;
        }
    }
    text.len()
}
