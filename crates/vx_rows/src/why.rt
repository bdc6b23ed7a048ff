// Why a text is no file of rows.

use std::alloc::{AllocError, AllocFailed};

/// What is wrong with a line of a file of rows.
#[derive(Clone, Copy, PartialEq, Eq)]
pub enum Why {
    /// Memory is wanted and not there.
    NoMemory,
    /// The last line has no line feed behind it.
    NotEnded,
    /// The line begins like no line of a file of rows, or lacks what belongs behind its first word.
    NoStatement,
    /// The line is no UTF-8, and is no content.
    NoText,
    /// A line of content has nothing before it that it could belong to.
    LoneContent,
    /// Content is not of the form that its mark asks for.
    BadContent,
    /// A line whose end is free stands in the content of a file, or lines that are.
    OpenInFile,
    /// The boxes are not some of `late`, `early`, `cyclic`, `units` and `words` in this order.
    BadBoxes,
    /// What fails or has room is none of those that may.
    BadPlace,
    /// A number is wanted, and none of those that may stand here is there.
    BadNumber,
    /// The same was said before, with no call and no row in between.
    SaidTwice,
    /// The row has no call, and the common part has none either.
    NoCall,
    /// A file behind the row's last call, which no call would find.
    LateFile,
}

impl Why {
    /// It in words.
    pub(crate) fn text(self) -> &'static str {
        match self {
            Why::NoMemory => "no memory",
            Why::NotEnded => "no line feed at the end",
            Why::NoStatement => "no line of a file of rows",
            Why::NoText => "no UTF-8",
            Why::LoneContent => "content behind nothing that has any",
            Why::BadContent => "content that is not of its mark's form",
            Why::OpenInFile => "anything in a file",
            Why::BadBoxes => "boxes other than late, early, cyclic, units, words in this order",
            Why::BadPlace => "nothing that may fail or have room",
            Why::BadNumber => "no number that may stand here",
            Why::SaidTwice => "said twice",
            Why::NoCall => "a row without a call",
            Why::LateFile => "a file behind the row's last call",
        }
    }
}

impl From<AllocError> for Why {
    fn from(_: AllocError) -> Why {
        Why::NoMemory
    }
}

impl<T: Drop> From<AllocFailed<T>> for Why {
    fn from(_: AllocFailed<T>) -> Why {
        Why::NoMemory
    }
}

/// A text that is no file of rows: its first wrong line, from 1, and what is wrong with it.
#[derive(Clone, Copy, PartialEq, Eq)]
pub struct Misread {
    /// The number of the line.
    pub line: usize,
    /// What is wrong with it.
    pub why: Why,
}
