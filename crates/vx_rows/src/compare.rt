// What a call left against what its step wants.

use crate::call::Outcome;
use crate::content::number_of;
use crate::files::{Stored, bytes_under};
use crate::rows::Step;
use crate::sheet::{Behind, Piece, Statement, Stream, Topic, What, before_gap};
use vx_test_files::depot::MemDepot;

/// What stands behind the end of a line.
fn behind_line(bytes: &[u8]) -> Option<&[u8]> {
    let at = bytes.iter().position(|byte| *byte == b'\n')?;
    bytes.get(at + 1..)
}

/// Whether a line is a number that is not less.
fn is_at_least(line: &[u8], least: u32) -> bool {
    match number_of(line) {
        Ok(number) => least <= number && line.first() != Some(&b'+'),
        Err(_) => false,
    }
}

/// What stands behind the end of a line that is a number, and none that is less.
fn behind_number(bytes: &[u8], least: u32) -> Option<&[u8]> {
    let at = bytes.iter().position(|byte| *byte == b'\n')?;
    if is_at_least(&bytes[..at], least) {
        bytes.get(at + 1..)
    } else {
        None
    }
}

/// What stands behind a piece that stands at the front, where it is not `...`.
fn behind_piece<'a>(piece: &Piece, bytes: &'a [u8]) -> Option<&'a [u8]> {
    let rest = bytes.strip_prefix(piece.bytes.as_slice())?;
    match piece.behind {
        Behind::Nothing | Behind::Lines => Some(rest),
        Behind::Line => behind_line(rest),
        Behind::Number(least) => behind_number(rest, least),
    }
}

/// What stands behind pieces that stand at the front, none of which is `...`.
fn behind_block<'a>(block: &[Piece], bytes: &'a [u8]) -> Option<&'a [u8]> {
    let mut rest = bytes;
    for piece in block {
        rest = behind_piece(piece, rest)?;
    }
    Some(rest)
}

/// What stands behind a block at the front, where it is nothing or need not be.
fn behind_there<'a>(block: &[Piece], bytes: &'a [u8], is_last: bool) -> Option<&'a [u8]> {
    let rest = behind_block(block, bytes)?;
    if is_last && !rest.is_empty() {
        return None;
    }
    Some(rest)
}

/// What stands behind a block that comes after any lines: behind the first place where it stands, or, where it is the last one,
/// where it stands with nothing behind it. A block that begins later also ends later, so where it ends a line no other place would
/// leave more to the blocks that follow.
fn behind_gap<'a>(block: &[Piece], bytes: &'a [u8], is_last: bool) -> Option<&'a [u8]> {
    let mut rest = bytes;
    for _ in bytes {
        match behind_there(block, rest, is_last) {
            Some(behind) => return Some(behind),
            None => rest = behind_line(rest)?,
        }
    }
    behind_there(block, rest, is_last)
}

/// Whether bytes are what pieces say of which the first is `...`, where there is one.
fn meets_gaps(bytes: &[u8], content: &[Piece]) -> bool {
    let mut rest = bytes;
    let mut left = content;
    for _ in content {
        let (block, others) = match left.split_first() {
            Some((_, behind)) => before_gap(behind),
            None => return rest.is_empty(),
        };
        if block.is_empty() && others.is_empty() {
            return true;
        }
        match behind_gap(block, rest, others.is_empty()) {
            Some(behind) => rest = behind,
            None => return false,
        }
        left = others;
    }
    rest.is_empty()
}

/// Whether bytes are what the pieces of content say.
fn meets(bytes: &[u8], content: &[Piece]) -> bool {
    let (front, others) = before_gap(content);
    match behind_block(front, bytes) {
        Some(rest) => meets_gaps(rest, others),
        None => false,
    }
}

/// The bytes of an output behind a call.
pub(crate) fn bytes_of(outcome: &Outcome, stream: Stream) -> &[u8] {
    match stream {
        Stream::Out => outcome.out.bytes(),
        Stream::Err => outcome.err.bytes(),
    }
}

/// Whether an output holds what the step wants.
pub(crate) fn puts_as_wanted(step: &Step<'_>, outcome: &Outcome, stream: Stream) -> bool {
    let bytes = bytes_of(outcome, stream);
    match step.wanted(Topic::Puts(stream)) {
        Some(statement) => meets(bytes, statement.content.as_slice()),
        None => bytes.is_empty(),
    }
}

/// Whether what a statement says of a file behind the call is so. A statement on something else says nothing of files.
pub(crate) fn is_so(statement: &Statement, depot: &MemDepot) -> bool {
    match &statement.what {
        What::After(name) => match depot.file(name.as_str()) {
            Some(bytes) => meets(bytes, statement.content.as_slice()),
            None => false,
        },
        What::Missing(name) => depot.file(name.as_str()).is_none(),
        What::There(name) => depot.file(name.as_str()).is_some(),
        _ => true,
    }
}

/// Whether what holds for a step among statements is so for the files behind its call.
fn are_so(statements: &[Statement], step: &Step<'_>, depot: &MemDepot) -> bool {
    statements.iter().all(|statement| is_so(statement, depot) || !step.holds(statement))
}

/// Whether the files are as the step wants them.
fn files_as_wanted(step: &Step<'_>, depot: &MemDepot) -> bool {
    are_so(step.near, step, depot) && are_so(step.far, step, depot) && are_so(step.all, step, depot)
}

/// Whether the output is what stands under the name that keeps it, where the call found something there.
pub(crate) fn puts_as_kept(step: &Step<'_>, outcome: &Outcome, found: &[Stored]) -> bool {
    match step.kept() {
        Some(name) => match bytes_under(found, name) {
            Some(bytes) => bytes == outcome.out.bytes(),
            None => true,
        },
        None => true,
    }
}

/// Whether a call left what its step wants.
pub(crate) fn is_as_wanted(step: &Step<'_>, outcome: &Outcome, found: &[Stored]) -> bool {
    outcome.status == step.status()
        && puts_as_wanted(step, outcome, Stream::Out)
        && puts_as_wanted(step, outcome, Stream::Err)
        && puts_as_kept(step, outcome, found)
        && files_as_wanted(step, &outcome.depot)
}
