// What is printed.

use crate::call::Outcome;
use crate::compare::{bytes_of, is_so, puts_as_kept, puts_as_wanted};
use crate::files::{Stored, words_of};
use crate::halt::Halt;
use crate::rows::{Row, Step};
use crate::sheet::{Statement, Stream, What};
use crate::why::Misread;
use vx_io::sink::{Sink, put_all};
use vx_test_files::depot::MemDepot;
use vx_test_files::lines::{Line, Lines};

/// How many lines of what came are printed.
const MOST_LINES: u32 = 20;

/// How many bytes of a line are printed.
const MOST_BYTES: usize = 2000;

/// How many rows and calls there were, and how many of the rows differ.
#[derive(Clone, Copy, PartialEq, Eq)]
pub struct Tally {
    /// The rows.
    pub rows: u64,
    /// The calls.
    pub calls: u64,
    /// The rows of which a call differs.
    pub differ: u64,
}

impl Tally {
    /// That of no row.
    pub const NONE: Tally = Tally {
        rows: 0,
        calls: 0,
        differ: 0,
    };

    /// It with that of other rows.
    pub(crate) fn with(self, other: Tally) -> Tally {
        Tally {
            rows: self.rows.saturating_add(other.rows),
            calls: self.calls.saturating_add(other.calls),
            differ: self.differ.saturating_add(other.differ),
        }
    }
}

/// Prints a text.
fn put<K: Sink>(out: &mut K, text: &str) -> Result<(), Halt> {
    Ok(put_all(out, text.as_bytes())?)
}

/// Prints a number in decimal.
fn put_number<K: Sink>(out: &mut K, number: u64) -> Result<(), Halt> {
    let mut buffer = itoa::Buffer::new();
    put(out, buffer.format(number))
}

/// Prints the place of a line of a file.
fn put_place<K: Sink>(out: &mut K, file: &str, line: usize) -> Result<(), Halt> {
    put(out, file)?;
    put(out, ":")?;
    put_number(out, line as u64)
}

/// Prints why a file is no file of rows.
pub(crate) fn tell_misread<K: Sink>(out: &mut K, file: &str, misread: Misread) -> Result<(), Halt> {
    put_place(out, file, misread.line)?;
    put(out, ": ")?;
    put(out, misread.why.text())?;
    put(out, "\n")
}

/// Prints that a file cannot be read.
pub(crate) fn tell_unread<K: Sink>(out: &mut K, file: &str) -> Result<(), Halt> {
    put(out, file)?;
    put(out, ": cannot be read\n")
}

/// Prints the counts of a file, or of all.
pub(crate) fn tell_tally<K: Sink>(out: &mut K, file: &str, tally: Tally) -> Result<(), Halt> {
    put(out, file)?;
    put(out, ": ")?;
    put_number(out, tally.rows)?;
    put(out, " rows, ")?;
    put_number(out, tally.calls)?;
    put(out, " calls")?;
    if tally.differ > 0 {
        put(out, ", ")?;
        put_number(out, tally.differ)?;
        put(out, " differ")?;
    }
    put(out, "\n")
}

/// Prints the words of a call behind the program's name.
fn put_words<K: Sink>(out: &mut K, words: &[String]) -> Result<(), Halt> {
    put(out, "$")?;
    for word in words.iter().skip(1) {
        put(out, " ")?;
        put(out, word.as_str())?;
    }
    put(out, "\n")
}

/// Prints which call of which row differs.
fn put_head<K: Sink>(out: &mut K, file: &str, row: &Row<'_>, call: &Statement) -> Result<(), Halt> {
    put_place(out, file, row.line)?;
    put(out, " ")?;
    put(out, row.name)?;
    put(out, ": ")?;
    put_words(out, words_of(call))
}

/// Prints a line of what came, with the mark of content that gives it.
fn put_line<K: Sink>(out: &mut K, line: &Line<'_>) -> Result<(), Halt> {
    put(out, if line.ended { "|" } else { ":" })?;
    let count = line.bytes.len().min(MOST_BYTES);
    put_all(out, &line.bytes[..count])?;
    put(
        out,
        if count < line.bytes.len() {
            "..\n"
        } else {
            "\n"
        },
    )
}

/// Prints the first lines of what came.
fn put_lines<K: Sink>(out: &mut K, bytes: &[u8]) -> Result<(), Halt> {
    let mut lines = Lines::make(bytes);
    for _ in 0..MOST_LINES {
        match lines.next_line() {
            Some(line) => put_line(out, &line)?,
            None => return Ok(()),
        }
    }
    match lines.next_line() {
        Some(_) => put(out, "..\n"),
        None => Ok(()),
    }
}

/// Prints the status that came, where it is not the one that was wanted.
fn tell_status<K: Sink>(out: &mut K, came: u8, wanted: u8) -> Result<(), Halt> {
    if came == wanted {
        return Ok(());
    }
    put(out, "status ")?;
    put_number(out, u64::from(came))?;
    put(out, ", not ")?;
    put_number(out, u64::from(wanted))?;
    put(out, "\n")
}

/// Prints what an output holds, where it is not what was wanted.
fn tell_stream<K: Sink>(
    out: &mut K,
    step: &Step<'_>,
    outcome: &Outcome,
    stream: Stream,
) -> Result<(), Halt> {
    if puts_as_wanted(step, outcome, stream) {
        return Ok(());
    }
    put(
        out,
        match stream {
            Stream::Out => "out:\n",
            Stream::Err => "err:\n",
        },
    )?;
    put_lines(out, bytes_of(outcome, stream))
}

/// Prints a word, a name and what is behind them.
fn put_named<K: Sink>(out: &mut K, word: &str, name: &str, rest: &str) -> Result<(), Halt> {
    put(out, word)?;
    put(out, name)?;
    put(out, rest)
}

/// Prints what stands under a name.
fn tell_after<K: Sink>(out: &mut K, name: &str, depot: &MemDepot) -> Result<(), Halt> {
    match depot.file(name) {
        Some(bytes) => {
            put_named(out, "after ", name, ":\n")?;
            put_lines(out, bytes)
        }
        None => put_named(out, "after ", name, ": it is not there\n"),
    }
}

/// Prints what is otherwise than a statement says of a file.
fn tell_file<K: Sink>(out: &mut K, what: &What, depot: &MemDepot) -> Result<(), Halt> {
    match what {
        What::After(name) => tell_after(out, name.as_str(), depot),
        What::Missing(name) => put_named(out, "none ", name.as_str(), ": it is there\n"),
        What::There(name) => put_named(out, "some ", name.as_str(), ": it is not there\n"),
        _ => Ok(()),
    }
}

/// Prints what is otherwise than a list of statements says of the files.
fn tell_files<K: Sink>(
    out: &mut K,
    statements: &[Statement],
    step: &Step<'_>,
    depot: &MemDepot,
) -> Result<(), Halt> {
    for statement in statements {
        if !is_so(statement, depot) && step.holds(statement) {
            tell_file(out, &statement.what, depot)?;
        }
    }
    Ok(())
}

/// Prints all that is otherwise than the statements of a step say of the files.
fn tell_all_files<K: Sink>(out: &mut K, step: &Step<'_>, depot: &MemDepot) -> Result<(), Halt> {
    tell_files(out, step.near, step, depot)?;
    tell_files(out, step.far, step, depot)?;
    tell_files(out, step.all, step, depot)
}

/// Prints what the output holds, where it is not what stands under the name that keeps it.
fn tell_kept<K: Sink>(
    out: &mut K,
    step: &Step<'_>,
    outcome: &Outcome,
    found: &[Stored],
) -> Result<(), Halt> {
    if puts_as_kept(step, outcome, found) {
        return Ok(());
    }
    put_named(
        out,
        "keep ",
        step.kept().unwrap_or(""),
        ": the output is another one:\n",
    )?;
    put_lines(out, outcome.out.bytes())
}

/// Prints a call that differs from what its step wants.
pub(crate) fn tell_call<K: Sink>(
    out: &mut K,
    file: &str,
    row: &Row<'_>,
    step: &Step<'_>,
    call: &Statement,
    outcome: &Outcome,
    found: &[Stored],
) -> Result<(), Halt> {
    put_head(out, file, row, call)?;
    tell_status(out, outcome.status, step.status())?;
    tell_stream(out, step, outcome, Stream::Out)?;
    tell_stream(out, step, outcome, Stream::Err)?;
    tell_kept(out, step, outcome, found)?;
    tell_all_files(out, step, &outcome.depot)
}
