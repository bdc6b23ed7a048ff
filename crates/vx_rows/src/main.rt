// Rows of calls of the compiler, and what each is to leave. The words name files of rows; the program makes their calls over
// files and outputs in memory, and prints the rows that differ and how many rows and calls there were. It ends with status 0
// where no row differs, else with 1.
#![tactic(auto)]

mod call;
mod compare;
mod content;
mod files;
mod halt;
mod reader;
mod report;
mod rows;
mod run;
mod sheet;
mod why;

use crate::halt::Halt;
use crate::reader::read_sheet;
use crate::report::{Tally, tell_misread, tell_tally, tell_unread};
use crate::run::{check_rows, run_rows};
use crate::sheet::Statement;
use crate::why::Misread;
use std::alloc::Global;
use std::env;
use std::process::ExitCode;
use std::rt::Files;
use vx_io::real::{RealDepot, RealSink};
use vx_io::sink::Sink;
use vx_io::whole_file::{FileRead, read_file};

/// The most bytes of a file of rows.
const MOST_BYTES: u64 = 1 << 26;

/// The statements of a text all of whose rows can be run.
fn statements_of(alloc: Global, text: &[u8]) -> Result<Vec<Statement>, Misread> {
    let statements = read_sheet(alloc, text)?;
    check_rows(statements.as_slice())?;
    Ok(statements)
}

/// Runs the rows of a text, and prints what there is to say. There is no count where the text is no file of rows.
fn run_text<K: Sink>(
    alloc: Global,
    out: &mut K,
    file: &str,
    text: &[u8],
) -> Result<Option<Tally>, Halt> {
    match statements_of(alloc, text) {
        Ok(statements) => {
            let tally = run_rows(alloc, out, file, statements.as_slice())?;
            tell_tally(out, file, tally)?;
            Ok(Some(tally))
        }
        Err(misread) => {
            tell_misread(out, file, misread)?;
            Ok(None)
        }
    }
}

/// Runs the rows of a file.
fn run_file<R: Files + AllocGlobal, K: Sink>(
    rt: &R,
    out: &mut K,
    file: &str,
) -> Result<Option<Tally>, Halt> {
    let mut depot = RealDepot::make(rt);
    match read_file(rt.alloc(), &mut depot, file, MOST_BYTES) {
        Ok(FileRead::Whole(text)) => run_text(rt.alloc(), out, file, text.as_slice()),
        _ => {
            tell_unread(out, file)?;
            Ok(None)
        }
    }
}

/// Runs the rows of all files, and answers whether none differs.
fn run_files<K: Sink>(rt: &HostRuntime, out: &mut K, files: &[String]) -> Result<bool, Halt> {
    let mut all = Tally::NONE;
    let mut is_read = true;
    for file in files {
        match run_file(rt, out, file.as_str())? {
            Some(tally) => all = all.with(tally),
            None => is_read = false,
        }
    }
    tell_tally(out, "all", all)?;
    Ok(is_read && all.differ == 0)
}

/// The words of the command line, the program's name first.
fn words_of(rt: &HostRuntime) -> Option<Vec<String>> {
    match env::args(rt) {
        Ok(words) => words.collect(rt.alloc()).ok(),
        Err(_) => None,
    }
}

/// Runs the rows of the files that the words name, and answers whether none differs.
fn run_words(rt: &HostRuntime) -> Result<bool, Halt> {
    let mut out = RealSink::make(rt.stdout());
    match words_of(rt) {
        Some(words) => match words.as_slice() {
            [_, files @ ..] => run_files(rt, &mut out, files),
            [] => run_files(rt, &mut out, &[]),
        },
        None => Err(Halt::NoMemory),
    }
}

fn main(rt: HostRuntime) -> ExitCode {
    match run_words(&rt) {
        Ok(true) => ExitCode::from(0),
        _ => ExitCode::from(1),
    }
}
