// The lines of a text of bytes, in order and without copying.
ghost use Rattle.std.specs.Prelude.{◌≡◌, ◌≢◌, ◌++◌, [], ◌∷◌, All, IsNone, IsTrue, IfSome, IfNone, ◌↔◌, false, not, ◌==◌, ◌<◌, ◌≤◌, take, length, slice_index};
ghost use Rattle.std.specs.List.{prefix_len};
ghost use Rattle.vx_test_files.specs.Lines.{line_text, lines_of};

use std::marker::Model;

/// A line of a text.
#[derive(Clone, Copy)]
pub struct Line<'a> {
    /// The line without its line feed.
    pub bytes: &'a [u8],
    /// Whether a line feed stands behind it. Only the last line of a text may lack one.
    pub ended: bool,
}

/// The lines of a text that are not handed out yet.
#[derive(Drop)]
pub struct Lines<'a> {
    rest: &'a [u8],
}

impl<'a> Model for Lines<'a> {
    ghost use Rattle.std.specs.Prelude.{List, ℕ};

    ghost Value = { List ℕ };

    ghost view = { λ a. a.rest.now };
}

/// The length of the first line, without its line feed.
fn first_length(text: &[u8]) -> usize
    ensures counts { result ≡ prefix_len (λ byte. not (byte == 10)) text.now }
    ensures inside { All (λ byte. byte ≢ 10) (take result text.now) }
    ensures feed { result < length text.now → slice_index text.now result ≡ 10 }
    ensures within { result ≤ length text.now }
{
    text.iter().take_while(|byte| **byte != b'\n').count()
}

/// The first line of a text that is not empty, and the text behind it.
fn split_line(text: &[u8]) -> (Line<'_>, &[u8])
    requires { 0 < length text.now }
    ensures first { lines_of text.now ≡ record { bytes = result.0.bytes.now; ended = result.0.ended } ∷ lines_of result.1.now }
    ensures text { text.now ≡ line_text (record { bytes = result.0.bytes.now; ended = result.0.ended }) ++ result.1.now }
    ensures no_line_feed { All (λ byte. byte ≢ 10) result.0.bytes.now }
    ensures ended { result.0.ended ≡ false → result.1.now ≡ [] }
{
    let length = first_length(text);
    if length < text.len() {
        let line = Line {
            bytes: &text[..length],
            ended: true,
        };
        (line, &text[length + 1..])
    } else {
        let line = Line {
            bytes: text,
            ended: false,
        };
        (line, &[])
    }
}

impl<'a> Lines<'a> {
    /// The lines of a text. They take no memory.
    pub fn make(bytes: &'a [u8]) -> Lines<'a>
        ensures { result ≡ bytes.now }
    {
        Lines { rest: bytes }
    }

    /// The next line, or `None` exactly where no byte is left. It takes no memory.
    pub fn next_line(&mut self) -> Option<Line<'a>>
        ensures at_end { IsNone result ↔ (self.old ≡ []) }
        ensures first { IfSome result (λ line. lines_of self.old ≡ record { bytes = line.bytes.now; ended = line.ended } ∷ lines_of self.new) }

        // It stands at the front of what was left, with its line feed where it has one.
        ensures text { IfSome result (λ line. self.old ≡ line_text (record { bytes = line.bytes.now; ended = line.ended }) ++ self.new) }
        ensures no_line_feed { IfSome result (λ line. All (λ byte. byte ≢ 10) line.bytes.now) }
        ensures ended { IfSome result (λ line. line.ended ≡ false → self.new ≡ []) }
        ensures nothing_left { IfNone result (self.new ≡ []) }
    {
        if self.rest.is_empty() {
            return None;
        }
        let (line, rest) = split_line(self.rest);
        self.rest = rest;
        Some(line)
    }
}
