// Reads a text as a file of rows.

use crate::content::{is_content, piece_of};
use crate::sheet::{Behind, Boxes, Faulty, Piece, Statement, Stream, Topic, What};
use crate::why::{Misread, Why};
use std::alloc::Global;
use vx_test_files::lines::{Line, Lines};

/// The name that stands first among the words of each call.
const PROGRAM: &str = "vexc";

/// The words of a call.
fn call_of(alloc: Global, words: Option<&str>) -> Result<What, Why> {
    let mut all = Vec::new(alloc);
    all.push(String::from_str(alloc, PROGRAM)?)?;
    if let Some(words) = words {
        push_words(alloc, &mut all, words)?;
    }
    Ok(What::Call(all))
}

/// Puts the words that stand between blanks behind others.
fn push_words(alloc: Global, all: &mut Vec<String>, words: &str) -> Result<(), Why> {
    for word in words.split(' ') {
        all.push(String::from_str(alloc, word)?)?;
    }
    Ok(())
}

/// The boxes with one more, where it stands behind the others.
fn with_box(boxes: Boxes, name: &str) -> Result<Boxes, Why> {
    let no_probe = !(boxes.units || boxes.words);
    match name {
        "late" if no_probe && !(boxes.late || boxes.early || boxes.cyclic) => Ok(Boxes {
            late: true,
            ..boxes
        }),
        "early" if no_probe && !(boxes.early || boxes.cyclic) => Ok(Boxes {
            early: true,
            ..boxes
        }),
        "cyclic" if no_probe && !boxes.cyclic => Ok(Boxes {
            cyclic: true,
            ..boxes
        }),
        "units" if no_probe => Ok(Boxes {
            units: true,
            ..boxes
        }),
        "words" if !boxes.words => Ok(Boxes {
            words: true,
            ..boxes
        }),
        _ => Err(Why::BadBoxes),
    }
}

/// The boxes of these names.
fn boxes_of(names: Option<&str>) -> Result<What, Why> {
    let mut boxes = Boxes {
        late: false,
        early: false,
        cyclic: false,
        units: false,
        words: false,
    };
    if let Some(names) = names {
        for name in names.split(' ') {
            boxes = with_box(boxes, name)?;
        }
    }
    Ok(What::Hands(boxes))
}

/// An output of this name.
fn stream_of(name: &str) -> Result<Stream, Why> {
    match name {
        "out" => Ok(Stream::Out),
        "err" => Ok(Stream::Err),
        _ => Err(Why::BadPlace),
    }
}

/// What may fail, of this name.
fn faulty_of(name: &str) -> Result<Faulty, Why> {
    match name {
        "depot" => Ok(Faulty::Depot),
        _ => Ok(Faulty::Sink(stream_of(name)?)),
    }
}

/// The number of a call, from 1.
fn count_of(digits: &str) -> Result<u64, Why> {
    match digits.parse::<u64>() {
        Ok(0) | Err(_) => Err(Why::BadNumber),
        Ok(number) => Ok(number),
    }
}

/// The numbers of calls.
fn counts_of(alloc: Global, numbers: &str) -> Result<Vec<u64>, Why> {
    let mut counts = Vec::new(alloc);
    for digits in numbers.split(' ') {
        counts.push(count_of(digits)?)?;
    }
    Ok(counts)
}

/// What fails, and its calls that do.
fn fails_of(alloc: Global, text: &str) -> Result<What, Why> {
    match text.split_once(' ') {
        Some((name, numbers)) => {
            let faulty = faulty_of(name)?;
            Ok(What::Fails(faulty, counts_of(alloc, numbers)?))
        }
        None => Ok(What::Fails(faulty_of(text)?, Vec::new(alloc))),
    }
}

/// An output and its room.
fn room_of(text: &str) -> Result<What, Why> {
    match text.split_once(' ') {
        Some((name, digits)) => match digits.parse::<usize>() {
            Ok(room) => Ok(What::Room(stream_of(name)?, room)),
            Err(_) => Err(Why::BadNumber),
        },
        None => Err(Why::BadNumber),
    }
}

/// A status.
fn status_of(digits: &str) -> Result<What, Why> {
    match digits.parse::<u8>() {
        Ok(number) if number <= 15 => Ok(What::Ends(number)),
        _ => Err(Why::BadNumber),
    }
}

/// What a line says that has nothing behind its first word.
fn alone(alloc: Global, word: &str) -> Result<What, Why> {
    match word {
        "$" => call_of(alloc, None),
        "boxes" => boxes_of(None),
        "out" => Ok(What::Puts(Stream::Out)),
        "err" => Ok(What::Puts(Stream::Err)),
        _ => Err(Why::NoStatement),
    }
}

/// What a line says whose first word is followed by a name.
fn with_name(alloc: Global, word: &str, name: &str) -> Result<What, Why> {
    let name = String::from_str(alloc, name)?;
    match word {
        "==" => Ok(What::Row(name)),
        "@" => Ok(What::File(name)),
        "after" => Ok(What::After(name)),
        "none" => Ok(What::Missing(name)),
        "some" => Ok(What::There(name)),
        "keep" => Ok(What::Keeps(name)),
        _ => Err(Why::NoStatement),
    }
}

/// What a line says that has a text behind its first word.
fn with_rest(alloc: Global, word: &str, rest: &str) -> Result<What, Why> {
    match word {
        "$" => call_of(alloc, Some(rest)),
        "boxes" => boxes_of(Some(rest)),
        "fail" => fails_of(alloc, rest),
        "room" => room_of(rest),
        "status" => status_of(rest),
        _ => with_name(alloc, word, rest),
    }
}

/// What a line says that is no content.
fn what_of(alloc: Global, line: &[u8]) -> Result<What, Why> {
    match str::from_utf8(line) {
        Ok(text) => match text.split_once(' ') {
            Some((word, rest)) => with_rest(alloc, word, rest),
            None => alone(alloc, text),
        },
        Err(_) => Err(Why::NoText),
    }
}

/// Whether the topic was spoken of behind the last call and the last row.
fn is_said(statements: &[Statement], topic: Topic<'_>) -> bool {
    for statement in statements.iter().rev() {
        if statement.what.is_call() || statement.what.is_row() {
            return false;
        }
        if statement.what.topic() == topic {
            return true;
        }
    }
    false
}

/// Whether a statement says something again.
fn is_again(statements: &[Statement], what: &What) -> bool {
    match what.topic() {
        Topic::Own => false,
        topic => is_said(statements, topic),
    }
}

/// The statements that were read so far.
#[derive(Drop)]
struct Reader {
    statements: Vec<Statement>,
    /// Whether content may stand in the next line.
    takes_content: bool,
}

/// Whether a piece may be content of a statement.
fn fits(what: &What, piece: &Piece) -> bool {
    piece.behind == Behind::Nothing || !what.is_file()
}

impl Reader {
    /// Reads a line of content.
    fn take_content(&mut self, alloc: Global, line: &[u8]) -> Result<(), Why> {
        if !self.takes_content {
            return Err(Why::LoneContent);
        }
        let piece = piece_of(alloc, line)?;
        match self.statements.last_mut() {
            Some(statement) => {
                if !fits(&statement.what, &piece) {
                    return Err(Why::OpenInFile);
                }
                statement.content.push(piece)?;
                Ok(())
            }
            None => Err(Why::LoneContent),
        }
    }

    /// Reads a line that is no content.
    fn take_statement(&mut self, alloc: Global, number: usize, line: &[u8]) -> Result<(), Why> {
        let what = what_of(alloc, line)?;
        if is_again(self.statements.as_slice(), &what) {
            return Err(Why::SaidTwice);
        }
        self.takes_content = what.has_content();
        self.statements.push(Statement {
            line: number,
            what,
            content: Vec::new(alloc),
        })?;
        Ok(())
    }

    /// Reads a line.
    fn take_line(&mut self, alloc: Global, number: usize, line: &Line<'_>) -> Result<(), Why> {
        if !line.ended {
            return Err(Why::NotEnded);
        }
        if line.bytes.is_empty() || line.bytes.first() == Some(&b'#') {
            self.takes_content = false;
            return Ok(());
        }
        if is_content(line.bytes) {
            self.take_content(alloc, line.bytes)
        } else {
            self.take_statement(alloc, number, line.bytes)
        }
    }
}

/// Reads the lines of a text.
fn take_lines(alloc: Global, reader: &mut Reader, text: &[u8]) -> Result<(), Misread> {
    let mut lines = Lines::make(text);
    for at in 0..text.len() {
        match lines.next_line() {
            Some(line) => match reader.take_line(alloc, at + 1, &line) {
                Ok(()) => {}
                Err(why) => return Err(Misread { line: at + 1, why }),
            },
            None => return Ok(()),
        }
    }
    Ok(())
}

/// The statements of a text.
pub(crate) fn read_sheet(alloc: Global, text: &[u8]) -> Result<Vec<Statement>, Misread> {
    let mut reader = Reader {
        statements: Vec::new(alloc),
        takes_content: false,
    };
    take_lines(alloc, &mut reader, text)?;
    Ok(reader.statements)
}
