// The writer of a page. It remembers that memory was wanted, so that what is put needs no answer; `done` says it at the end.

use crate::escaped::push_escaped;
use itoa::Buffer;
use std::alloc::Global;
use vx_base::outcome::NoMemory;

/// A place as a number of 32 bits, the greatest where it is beyond them.
pub fn small(place: usize) -> u32 {
    if place < 4294967296 {
        place as u32
    } else {
        4294967295
    }
}

/// A page, or a plain text, that is being written.
#[derive(Drop)]
pub struct Page {
    out: Vec<u8>,
    is_short: bool,
    is_plain: bool,
}

impl Page {
    /// An empty page.
    pub fn new(alloc: Global) -> Page {
        Page {
            out: Vec::new(alloc),
            is_short: false,
            is_plain: false,
        }
    }

    /// An empty plain text, into which bytes of a source go as they are.
    pub fn plain(alloc: Global) -> Page {
        Page {
            out: Vec::new(alloc),
            is_short: false,
            is_plain: true,
        }
    }

    /// Puts bytes of our own.
    pub fn put(&mut self, bytes: &[u8]) {
        if self.out.extend_from_slice(bytes).is_err() {
            self.is_short = true;
        }
    }

    /// Puts a number.
    pub fn long(&mut self, number: u64) {
        let mut buffer = Buffer::new();
        self.put(buffer.format(number).as_bytes());
    }

    /// Puts a number.
    pub fn number(&mut self, number: u32) {
        self.long(u64::from(number));
    }

    /// Puts a number with its sign.
    pub fn signed(&mut self, number: i32) {
        let mut buffer = Buffer::new();
        self.put(buffer.format(number).as_bytes());
    }

    /// Puts bytes of a source.
    pub fn source(&mut self, bytes: &[u8]) {
        if self.is_plain {
            self.put(bytes);
        } else if push_escaped(&mut self.out, bytes).is_err() {
            self.is_short = true;
        }
    }

    /// Puts a byte of a text that is printed: a line feed, a tab, and what cannot be seen, by a mark.
    fn quoted_byte(&mut self, byte: u8) {
        match byte {
            10 => self.put(b"\\n"),
            9 => self.put(b"\\t"),
            13 => self.put(b"\\r"),
            34 => self.source(b"\\\""),
            92 => self.put(b"\\\\"),
            other => {
                if other < 32 {
                    self.put(b"\\?");
                } else {
                    self.source(&[other]);
                }
            }
        }
    }

    /// Puts a text that is printed, between quotes.
    pub fn quoted(&mut self, bytes: &[u8]) {
        self.source(b"\"");
        for byte in bytes {
            self.quoted_byte(*byte);
        }
        self.source(b"\"");
    }

    /// Puts bytes of our own and a number behind them.
    pub fn field(&mut self, bytes: &[u8], number: u32) {
        self.put(bytes);
        self.number(number);
    }

    /// All that was put, unless memory was wanted for a part of it.
    pub fn done(self) -> Result<Vec<u8>, NoMemory> {
        if self.is_short {
            Err(NoMemory)
        } else {
            Ok(self.out)
        }
    }
}
