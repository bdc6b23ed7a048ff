// The files that a call finds, and those that it leaves.

use crate::halt::Halt;
use crate::rows::Row;
use crate::sheet::{Piece, Statement, What};
use std::alloc::{AllocError, Global};
use vx_base::outcome::NoMemory;
use vx_io::depot::Depot;
use vx_test_files::depot::MemDepot;

/// A file.
#[derive(Drop)]
pub struct Stored {
    /// Its name.
    pub name: String,
    /// What it holds.
    pub bytes: Vec<u8>,
}

/// The bytes of content.
fn joined(alloc: Global, content: &[Piece]) -> Result<Vec<u8>, AllocError> {
    let mut bytes = Vec::new(alloc);
    for piece in content {
        bytes.extend_from_slice(piece.bytes.as_slice())?;
    }
    Ok(bytes)
}

/// Puts a file behind the others. Of two files of a name the later one counts.
fn put_file(
    alloc: Global,
    files: &mut Vec<Stored>,
    name: &str,
    bytes: Vec<u8>,
) -> Result<(), NoMemory> {
    let name = String::from_str(alloc, name)?;
    files.push(Stored { name, bytes })?;
    Ok(())
}

/// Puts the files among statements behind others.
pub(crate) fn put_files(
    alloc: Global,
    files: &mut Vec<Stored>,
    statements: &[Statement],
) -> Result<(), NoMemory> {
    for statement in statements {
        if let What::File(name) = &statement.what {
            let bytes = joined(alloc, statement.content.as_slice())?;
            put_file(alloc, files, name.as_str(), bytes)?;
        }
    }
    Ok(())
}

/// The files that the first step of a row finds.
pub(crate) fn first_files(alloc: Global, row: &Row<'_>) -> Result<Vec<Stored>, NoMemory> {
    let mut files = Vec::new(alloc);
    put_files(alloc, &mut files, row.common)?;
    put_files(alloc, &mut files, row.head())?;
    Ok(files)
}

/// The numbers of the calls that fail, where so many calls come before the first.
fn later(alloc: Global, numbers: &[u64], before: usize) -> Result<Vec<u64>, AllocError> {
    let mut all = Vec::new(alloc);
    for number in numbers {
        all.push(number.saturating_add(before as u64))?;
    }
    Ok(all)
}

/// Puts files into a depot.
fn fill(depot: &mut MemDepot, files: &[Stored]) -> Result<(), Halt> {
    for file in files {
        depot.replace(file.name.as_str(), file.bytes.as_slice())?;
    }
    Ok(())
}

/// A depot that holds no file.
fn empty_depot(alloc: Global, failing: Vec<u64>) -> Result<MemDepot, NoMemory> {
    MemDepot::make(alloc, Vec::new(alloc), failing)
}

/// A depot that holds files. The calls of it that are listed fail, counted from the first behind its making.
pub(crate) fn depot_of(alloc: Global, files: &[Stored], failing: &[u64]) -> Result<MemDepot, Halt> {
    let failing = later(alloc, failing, files.len())?;
    let mut depot = empty_depot(alloc, failing)?;
    fill(&mut depot, files)?;
    Ok(depot)
}

/// What stands under a name. Of two files of a name the later one counts.
pub(crate) fn bytes_under<'a>(files: &'a [Stored], name: &str) -> Option<&'a [u8]> {
    for file in files.iter().rev() {
        if file.name.as_str() == name {
            return Some(file.bytes.as_slice());
        }
    }
    None
}

/// Puts what a call put on its output behind files, under the name that keeps it.
pub(crate) fn keep_output(
    alloc: Global,
    files: &mut Vec<Stored>,
    name: Option<&str>,
    bytes: &[u8],
) -> Result<(), NoMemory> {
    match name {
        Some(name) => put_file(alloc, files, name, Vec::from_slice(alloc, bytes)?),
        None => Ok(()),
    }
}

/// Whether a file of this name is among others.
fn is_among(files: &[Stored], name: &str) -> bool {
    files.iter().any(|file| file.name.as_str() == name)
}

/// Puts what a depot holds under a name behind other files, where it is not there yet.
fn keep(
    alloc: Global,
    kept: &mut Vec<Stored>,
    depot: &MemDepot,
    name: &str,
) -> Result<(), NoMemory> {
    if is_among(kept.as_slice(), name) {
        return Ok(());
    }
    match depot.file(name) {
        Some(bytes) => put_file(alloc, kept, name, Vec::from_slice(alloc, bytes)?),
        None => Ok(()),
    }
}

/// Keeps what a depot holds under the names of files.
fn keep_files(
    alloc: Global,
    kept: &mut Vec<Stored>,
    depot: &MemDepot,
    files: &[Stored],
) -> Result<(), NoMemory> {
    for file in files {
        keep(alloc, kept, depot, file.name.as_str())?;
    }
    Ok(())
}

/// Keeps what a depot holds under words.
fn keep_words(
    alloc: Global,
    kept: &mut Vec<Stored>,
    depot: &MemDepot,
    words: &[String],
) -> Result<(), NoMemory> {
    for word in words {
        keep(alloc, kept, depot, word.as_str())?;
    }
    Ok(())
}

/// The words of a call.
pub(crate) fn words_of(statement: &Statement) -> &[String] {
    match &statement.what {
        What::Call(words) => words.as_slice(),
        _ => &[],
    }
}

/// The files that a depot holds behind a call that found files: those under the names of what it found, and of its words.
pub(crate) fn left_files(
    alloc: Global,
    found: &[Stored],
    call: &Statement,
    depot: &MemDepot,
) -> Result<Vec<Stored>, NoMemory> {
    let mut kept = Vec::new(alloc);
    keep_files(alloc, &mut kept, depot, found)?;
    keep_words(alloc, &mut kept, depot, words_of(call))?;
    Ok(kept)
}
